//! Laws of the marks, over the definitions alone. Nothing is done.
ghost use Rattle.command_marks.specs.Laws.{AreThoseOfTheExercise, AreThoseOfTheReport, EndsByTheMarks, HasPlaceWhereItDiffers};

/// A call is right exactly where the report says ` [met]` of it, and as many are right as the report counts. Of two replies
/// that are both as expected, or both not, a mark is the same.
pub fn marks_are_those_of_the_report()
    ensures { AreThoseOfTheReport }
{}

/// By the questions of an exercise an answer is right exactly where the report says ` [met]` of it, and the answer says as much
/// as is asked for.
pub fn answers_are_right_where_they_say_enough()
    ensures { AreThoseOfTheExercise }
{}

/// Of a set-up that is another one than the exercise it is told where: by a key of what is booted, or by a call.
pub fn another_set_up_has_a_place()
    ensures { HasPlaceWhereItDiffers }
{}

/// Marks by an exercise end with status 0 exactly where each file is the exercise's set-up and all that is asked is right: the counts
/// that its row has are the same.
pub fn status_0_says_that_all_is_right()
    ensures { EndsByTheMarks }
{}
