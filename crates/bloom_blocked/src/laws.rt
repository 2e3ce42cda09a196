//! Laws of blocked filters. These functions do nothing: their contracts are the laws.
ghost use Rattle.std.specs.Prelude.{ℕ, ◌/◌, ◌≡◌, Bool, true};
ghost use Rattle.bloom_blocked.specs.BlockedLaws.{KeptByInsertsInLinesLaw, OneByOneLaw};
ghost use Rattle.bloom_blocked.specs.Blocked.{in_lines};
ghost use Rattle.bloom_blocked.specs.LineCourses.{IsLineScript, IsMadeAsScript};
ghost use Rattle.bloom_blocked.specs.LineSteps.{LooksInLine, SetsInLine};
ghost use Rattle.bloom_blocked.specs.Lines.{LinePositionsLaw, LineSubsetLaw, LineRangeLaw, OneLineLaw, are_in_line, line_positions};
ghost use Rattle.bloom_parts.specs.Made.{SharedWords};
ghost use Rattle.bloom_plain.specs.Laws.{InsertLaw, KeptByInsertLaw, KeptByUnionLaw, UnionLaw, IntersectionLaw, ClearLaw};
ghost use Rattle.bloom_steps.specs.Carried.{IsCourseOf};
ghost use Rattle.bloom_steps.specs.CourseLaws.{CourseTells};
ghost use Rattle.bloom_steps.specs.Courses.{Course};
ghost use Rattle.bloom_steps.specs.declared.steps.vocabulary.Call.TheVariants.{Contains, Insert};

/// The positions of a hash are the first of its chain, all in one line, and within the lines.
pub fn positions_of_hash()
    ensures members { LinePositionsLaw }
    ensures range { LineRangeLaw }
    ensures line { OneLineLaw }
{}

/// The test of a hash is whether its positions are a part of the set.
#[tactic(auto, using(crate::proofs::PositionLemmas::line_subset_law))]
pub fn test_of_hash()
    ensures { LineSubsetLaw }
{}

/// An insert returns what a look-up would have returned, and afterwards its hash is contained.
pub fn insert_answers_contains<S>()
    ensures { InsertLaw in_lines S }
{}

/// A contained hash stays contained under inserts and unions.
pub fn contained_stays<S>()
    ensures insert { KeptByInsertLaw in_lines S }
    ensures inserts { KeptByInsertsInLinesLaw S }
    ensures union { KeptByUnionLaw in_lines S }
{}

/// After a union every hash is contained that either filter contained. Other hashes may be too.
pub fn union_contains<S>()
    ensures { UnionLaw in_lines S }
{}

/// In every interleaving of the calls on a shared blocked filter each bit is what the last step
/// that decides it made it, an insert returns false exactly if it set a bit itself, a finished
/// insert is found unless a position of it was cleared since it began, and a look-up is right at
/// one moment. Inserts, look-ups and takes lose nothing. A live insert or look-up is made as a
/// script of such a course.
pub fn interleavings_in_lines()
    ensures courses { (words k : ℕ) (run : Course) → IsCourseOf words (IsLineScript words k) run
        → CourseTells (λ hash p. line_positions (words / 8) k hash p ≡ true)
        (are_in_line (words / 8) k) run }
    ensures live { (vector : SharedWords) (k hash : ℕ) (reply : Bool)
        → (SetsInLine vector k hash reply → IsMadeAsScript vector k (Insert hash) reply)
        × (LooksInLine vector k hash reply → IsMadeAsScript vector k (Contains hash) reply) }
{}

/// After an intersection exactly the hashes are contained that both filters contained.
pub fn intersection_contains<S>()
    ensures { IntersectionLaw in_lines S }
{}

/// After a clear no hash is contained.
pub fn clear_contains_nothing<S>()
    ensures { ClearLaw in_lines S }
{}

/// Many hashes inserted at once make the filter that inserts of each, one after the other, make.
#[tactic(auto, using(crate::proofs::LawLemmas::one_by_one_law))]
pub fn many_are_as_one_by_one<S>()
    ensures { OneByOneLaw S }
{}
