//! Laws of word steps.
ghost use Rattle.std.specs.Prelude.{ℕ, ◌*◌, ◌≤◌, length};
ghost use Rattle.bloom_parts.specs.Places.{IsPosition, are_in};
ghost use Rattle.bloom_steps.specs.Carried.{IsCourseOf};
ghost use Rattle.bloom_steps.specs.CourseLaws.{CourseTells, LawfulTells};
ghost use Rattle.bloom_steps.specs.Courses.{AtMostOne, Course, IsLawful};
ghost use Rattle.bloom_steps.specs.Memories.{MemoryLaw};
ghost use Rattle.bloom_steps.specs.Scripts.{IsScript};

use bloom_parts::laws::content_of_words;

/// Steps in memory, one after the other, make each position what the last that decides it says.
pub fn steps_in_memory()
    ensures { MemoryLaw }
{}

/// At most one course is lawful and follows a given schedule, so a run has no choice.
pub fn at_most_one_course()
    ensures { AtMostOne }
{
    content_of_words();
}

/// In every interleaving of calls each bit is what the last step that decides it made it, calls
/// that don't overlap are commands, an insert replies false exactly if it set a bit itself, a
/// look-up is right at one moment, and a finished insert is found unless a position of it was
/// cleared since it began. Growing courses end alike in any order, and takes lose nothing.
pub fn interleavings()
    ensures lawful { (k : ℕ) (run : Course) → 1 ≤ k → 1 ≤ length run.start → IsLawful k run
        → LawfulTells k run }
    // Of calls that never finished nothing is asked here.
    ensures carried { (words k : ℕ) (run : Course) → IsCourseOf words (IsScript words k) run
        → CourseTells (IsPosition (64 * words) k) (are_in (64 * words) k) run }
{}
