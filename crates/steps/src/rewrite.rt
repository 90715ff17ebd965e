// Rewriting at the root.
ghost use Rattle.std.specs.Prelude.{◌≡◌, length};
ghost use Rattle.term.specs.Answer.{answered};
ghost use Rattle.steps.specs.Rewrite.{rewrite_root_came, rewrite_root_gives};

use crate::area::give;
use crate::rules::{BODIES, ask, rewrite_at};
use book::limits::MOST_VARS_LONG;
use term::answer::Answer;
use term::check::MOST_WORDS;
use term::lent::clear;

// The visits where nothing was walked.
const NO_VISITS: u64 = 0;

// The answer, and how many nodes the walk visited. Not a Result: the contract of rewrite_root names both, at each answer.
#[derive(Clone, Copy)]
pub struct Rewritten {
    pub answer: Answer,
    pub visits: u64,
}

// Rewrites a term at its root by the rule that the tree finds, and counts the nodes visited.
pub fn rewrite_root(book: &[u32], tree: &[u32], term: &[u32], out: &mut [u32]) -> Rewritten
    ensures { rewrite_root_came (answered result.answer) result.visits out.new ≡ rewrite_root_gives book.now tree.now term.now (length out.old) }
{
    clear(out);
    if let Err(answer) = ask(book, term) {
        return Rewritten {
            answer,
            visits: NO_VISITS,
        };
    }
    let mut bodies = [0u32; BODIES];
    let mut lengths = [0u32; MOST_VARS_LONG];
    let mut area = [0u32; MOST_WORDS];
    let part = rewrite_at(book, tree, term, &mut bodies, &mut lengths, &mut area);
    let visits = part.visits;
    match part.came {
        None => Rewritten {
            answer: Answer::NoFit,
            visits,
        },
        Some(Ok(n)) => Rewritten {
            answer: give(Answer::Done, &area[..n], out),
            visits,
        },
        Some(Err(answer)) => Rewritten { answer, visits },
    }
}
