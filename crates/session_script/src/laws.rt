//! What holds of all scripts. Each law stands on a function that does nothing.

ghost use Rattle.session_script.specs.Answers.{AnswersAreOne, ScriptsHaveAnswers};

/// Any bytes have an answer: the queries of a script, or why they are none.
pub fn scripts_have_answers()
    ensures { ScriptsHaveAnswers }
{}

/// They have one answer alone.
pub fn answers_are_one()
    ensures { AnswersAreOne }
{}
