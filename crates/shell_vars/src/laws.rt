//! Laws: facts about the definitions that no single call shows.
ghost use Rattle.std.specs.Prelude.{◌≡◌, List};
ghost use Rattle.shell_vars.specs.Histories.{Call, HaveBeenMade, after_all};
ghost use Rattle.shell_vars.specs.Stores.{Stores};

/// After any list of calls the list of frames is the one that the calls' functions give, one after another. A call that
/// is refused, also one that is out of memory, changes nothing.
pub fn calls_give_the_frames()
    ensures { (calls : List Call) (old new : Stores) → HaveBeenMade calls old new → new ≡ after_all calls old }
{}
