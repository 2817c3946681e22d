ghost use Rattle.std.specs.Prelude.{◌≡◌, [], ◌++◌, ◌∷◌, IfOk, OnOk, List};

use crate::role::{Ifs, Role};
use eb_bytes::Memory;
use shell_marks::{Mark, Marked};
use std::alloc::Global;

// Where a pass over marks is.
#[derive(Drop)]
pub(crate) enum Place {
    // In no field.
    Outside,
    // In a field that began with these marks.
    Within(Marked),
    // After a field that blanks ended: a separator that comes next belongs to the same end.
    After,
}

// A field of one mark.
fn field_of(alloc: Global, mark: Mark) -> Result<Marked, Memory>
    ensures { IfOk result (λ field. field ≡ mark ∷ []) }
{
    let mut field = Marked::new(alloc);
    field.push(mark)?;
    Ok(field)
}

impl Place {
    ghost use Rattle.eb_bytes.specs.Text.{Text};
    ghost use Rattle.bash_split.specs.Pass.{fields_left, TakesMark, TakesPart, TakesRole};

    // Where the pass is after this mark. Fields that end are put at the end of `ended`.
    pub(crate) fn take(
        self,
        alloc: Global,
        ifs: &Ifs<'_>,
        mark: Mark,
        ended: &mut Vec<Marked>,
    ) -> Result<Place, Memory>
        ensures { IfOk result (TakesMark ifs.now mark self ended.old.items ended.new.items) }
    {
        match ifs.role(mark) {
            Role::Part => self.part(alloc, mark),
            Role::Blank => self.blank(ended),
            Role::Separator => self.separator(alloc, ended),
            Role::Border => self.border(ended),
        }
    }

    // After a part of a field.
    fn part(self, alloc: Global, mark: Mark) -> Result<Place, Memory>
        ensures { IfOk result (TakesPart mark self) }
    {
        match self {
            Place::Within(mut begun) => {
                begun.push(mark)?;
                Ok(Place::Within(begun))
            }
            Place::Outside | Place::After => Ok(Place::Within(field_of(alloc, mark)?)),
        }
    }

    // After a blank.
    fn blank(self, ended: &mut Vec<Marked>) -> Result<Place, Memory>
        ensures { IfOk result (TakesRole Role.Blank self ended.old.items ended.new.items) }
    {
        match self {
            Place::Within(begun) => {
                ended.push(begun)?;
                Ok(Place::After)
            }
            Place::Outside => Ok(Place::Outside),
            Place::After => Ok(Place::After),
        }
    }

    // After a separator.
    fn separator(self, alloc: Global, ended: &mut Vec<Marked>) -> Result<Place, Memory>
        ensures { IfOk result (TakesRole Role.Separator self ended.old.items ended.new.items) }
    {
        match self {
            Place::Within(begun) => ended.push(begun)?,
            Place::Outside => ended.push(Marked::new(alloc))?,
            Place::After => {}
        }
        Ok(Place::Outside)
    }

    // After a border.
    fn border(self, ended: &mut Vec<Marked>) -> Result<Place, Memory>
        ensures { IfOk result (TakesRole Role.Border self ended.old.items ended.new.items) }
    {
        self.end(ended)?;
        Ok(Place::Outside)
    }

    // Ends the field that is begun, if one is.
    pub(crate) fn end(self, ended: &mut Vec<Marked>) -> Result<(), Memory>
        ensures { OnOk result ((ifs : Text) → ended.new.items ≡ ended.old.items ++ fields_left ifs self []) }
    {
        if let Place::Within(begun) = self {
            ended.push(begun)?;
        }
        Ok(())
    }
}
