//! What holds of words of reads. Each law stands on a function that does nothing.

ghost use Rattle.plane_reads.specs.Reads.{AnswersAreOne, WordsHaveAnswers};

/// Each word has an answer: the columns of all its names, or its first name at fault.
pub fn words_have_answers()
    ensures { WordsHaveAnswers }
{}

/// A word has one answer alone.
pub fn answers_are_one()
    ensures { AnswersAreOne }
{}
