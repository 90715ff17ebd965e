// Document 01's "Numbers it answers with", and document 02's 18 and 19: what is written cannot take the arguments set aside; a term and its
// table of lengths disagree.
ghost use Rattle.std.specs.Prelude.{◌≡◌};
ghost use Rattle.term.specs.Answer.{number_of, place_of};

#[derive(Clone, Copy)]
pub enum Answer {
    Done,
    NoFit,
    BudgetUsed,
    BadText(usize),
    BadTerm(usize),
    BadBook(usize),
    Short,
    Damaged(usize),
    Over,
    NoRule(u32),
    CannotTake(u32),
    Disagree(usize),
}

// The number of the table.
// By hand: variants that hold a place have no number by as, and the table's numbers leave gaps.
pub fn number(answer: Answer) -> u32
    ensures { result ≡ number_of answer }
{
    match answer {
        Answer::Done => 0,
        Answer::NoFit => 1,
        Answer::BudgetUsed => 2,
        Answer::BadText(_) => 10,
        Answer::BadTerm(_) => 11,
        Answer::BadBook(_) => 12,
        Answer::Short => 13,
        Answer::Damaged(_) => 14,
        Answer::Over => 15,
        Answer::NoRule(_) => 16,
        Answer::CannotTake(_) => 18,
        Answer::Disagree(_) => 19,
    }
}

// The place that the table gives beside the number.
pub fn place(answer: Answer) -> usize
    ensures { result ≡ place_of answer }
{
    match answer {
        Answer::BadText(at)
        | Answer::BadTerm(at)
        | Answer::BadBook(at)
        | Answer::Damaged(at)
        | Answer::Disagree(at) => at,
        Answer::NoRule(at) | Answer::CannotTake(at) => at as usize,
        Answer::Done | Answer::NoFit | Answer::BudgetUsed | Answer::Short | Answer::Over => 0,
    }
}
