// Tables of answers in lent room, for repeated questions on one zone: a row has the seven numbers of an answer, and the rows are those of
// intervals one after the other. The functions stand in table_questions and answer_lists.
#![tactic(auto)]
