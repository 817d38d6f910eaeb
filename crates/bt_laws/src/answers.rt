//! What a client reads of an answer.
ghost use Rattle.bt_laws.specs.Answers.{AnswersAreLawful, AnswersJoin};

/// Where a table's rows are in the order of their keys, with lawful keys, names and timestamps, and
/// cells in order and without labels, the answer of a read with a valid filter has its rows in the order of their keys, each with cells, in order, whose names,
/// timestamps and labels are lawful. So a client reads from the chunks of the answer exactly its rows.
pub fn answers_join()
    ensures lawful { AnswersAreLawful }
    ensures joined { AnswersJoin }
{}
