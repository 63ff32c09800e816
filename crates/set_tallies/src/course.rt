// How rankings were added, one by one. Only clauses use this: at run time it takes no space and no time.
ghost use Rattle.std.specs.Prelude.{◌≡◌, ◌++◌, ◌∷◌, []};
ghost use Rattle.set_tallies.specs.Countings.{lengthened, rankings_by};

use irv_base::Candidate;
use std::mem;
use std::snapshot::Snapshot;

/// How rankings were added.
#[derive(Drop)]
pub enum Course {
    /// There are none.
    Nothing,
    /// An empty ranking was added last.
    Begun(Snapshot<Course>),
    /// A candidate was added at the end of the last ranking.
    Lengthened(Snapshot<Course>, Candidate),
    /// Others were added after them, by a course of their own.
    Appended(Snapshot<Course>, Snapshot<Snapshot<Course>>),
}

// Returns what a course was, and leaves nothing in its place.
fn taken(course: &mut Snapshot<Course>) -> Snapshot<Course>
    ensures { result ≡ course.old }
{
    mem::replace(course, Snapshot::of(&Course::Nothing))
}

/// Adds an empty ranking last.
pub fn begin(course: &mut Snapshot<Course>)
    ensures { rankings_by course.new.value ≡ rankings_by course.old.value ++ [] ∷ [] }
{
    *course = Snapshot::of(&Course::Begun(taken(course)));
}

/// Adds a candidate at the end of the last ranking.
pub fn lengthen(course: &mut Snapshot<Course>, c: Candidate)
    ensures { rankings_by course.new.value ≡ lengthened (rankings_by course.old.value) c }
{
    *course = Snapshot::of(&Course::Lengthened(taken(course), c));
}

/// Adds others after them.
pub fn append(course: &mut Snapshot<Course>, others: &Snapshot<Course>)
    ensures { rankings_by course.new.value
        ≡ rankings_by course.old.value ++ rankings_by others.now.value }
{
    *course = Snapshot::of(&Course::Appended(taken(course), Snapshot::of(others)));
}
