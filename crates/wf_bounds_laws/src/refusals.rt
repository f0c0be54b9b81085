// The laws of what the rules of bounds and of points refuse. Each is the contract of a function that does nothing.

ghost use Rattle.wf_bounds_laws.specs.BoundsLaws.{TypingKeepsBounds, TypingKeepsPoints, BoundsIgnoreOrder, PointsIgnoreOrder, TypingKeepsFiles, BoundsHaveFiles, PointsHaveFiles, ReadBoundsHaveFiles, ReadPointsHaveFiles, PointsAreDecided};

/// What is refused of the typed nodes of a package is what is refused of the resolved package that was typed.
pub fn typing_keeps_what_is_refused()
    ensures bounds { TypingKeepsBounds }
    ensures points { TypingKeepsPoints }
{}

/// It doesn't depend on the order in which a package tells its methods.
pub fn the_order_of_methods_makes_no_difference()
    ensures bounds { BoundsIgnoreOrder }
    ensures points { PointsIgnoreOrder }
{}

/// The typed bodies of a package stand in the files in which the package stands.
pub fn typing_keeps_files()
    ensures { TypingKeepsFiles }
{}

/// What is refused of a package stands in one of its files: so it is of a package that stands in so many files, and of one
/// that is read from files.
pub fn a_refusal_has_its_file()
    ensures bounds { BoundsHaveFiles }
    ensures points { PointsHaveFiles }
    ensures read_bounds { ReadBoundsHaveFiles }
    ensures read_points { ReadPointsHaveFiles }
{}

/// Of the methods with too many points there is a first refusal, or no method has too many.
pub fn points_are_decided()
    ensures { PointsAreDecided }
{}
