ghost use Rattle.std.specs.Prelude.{◌≡◌, filter, map};
ghost use Rattle.eb_files.specs.Plans.{due, nearer, sooner, waits};

/// A failure that was asked for: how many calls come before it, and what it leaves.
#[derive(Clone, Copy)]
pub(crate) struct Plan<T> {
    pub(crate) after: u64,
    pub(crate) left: T,
}

/// What the failure of the next call leaves: where several come with it, as the one asked for last says.
pub(crate) fn due<T: Copy>(plans: &[Plan<T>]) -> Option<T>
    ensures { result ≡ due plans.now }
{
    plans
        .iter()
        .rev()
        .find(|plan| plan.after == 0)
        .map(|plan| plan.left)
}

/// Takes out what comes with the next call, and brings the others one call nearer.
pub(crate) fn advance<T: Copy>(plans: &mut Vec<Plan<T>>)
    ensures { plans.new.items ≡ nearer plans.old.items }
{
    take_out_due(plans);
    bring_nearer(plans);
}

// Takes out what comes with the next call.
fn take_out_due<T: Copy>(plans: &mut Vec<Plan<T>>)
    ensures { plans.new.items ≡ filter waits plans.old.items }
{
    plans.retain(|plan| plan.after != 0);
}

// Each is one call nearer.
fn bring_nearer<T: Copy>(plans: &mut [Plan<T>])
    ensures { plans.new ≡ map sooner plans.old }
{
    for plan in plans {
        plan.after = plan.after.saturating_sub(1);
    }
}
