// The rules of a book that came by mail, read one after the other, and those of them that stay.
ghost use Rattle.std.specs.Prelude.{◌≡◌, ◌≤◌, length, drop};
ghost use Rattle.text.specs.Mail.{present_read};
ghost use Rattle.mend.specs.Repair.{stays};
ghost use Rattle.mend.specs.Told.Told.{MailedTold};

use book::book::sound_rule;
use book::limits::MOST_RULES_LONG;
use term::lent::put;
use text::mail::read_any_rule;

// A book, and one rule more that is read and judged behind it.
pub const AREA: usize = 8516;

// So many rules are present, so many of them stay, and the new book has so many words. Numbers beside the lent arrays, since there is no heap.
#[derive(Clone, Copy)]
pub struct Kept {
    pub present: usize,
    pub rules: usize,
    pub words: usize,
}

// Whether a rule stays, after so many that stayed.
fn rule_stays(rule: &[u32], before: usize) -> bool
    ensures { result ≡ stays before rule.now }
{
    sound_rule(rule) && before < MOST_RULES_LONG
}

// Reads the rules from `at` on until the text ends; the first line that is not in form, where there is one. Those that stay go into `book`,
// behind a word for their number, and their old numbers into `olds`.
pub fn keep_rules(
    text: &[u8],
    at: usize,
    book: &mut [u32; AREA],
    olds: &mut [u32; MOST_RULES_LONG],
) -> Result<Kept, usize>
    requires { (at ≤ length text.now) × (length text.now ≤ 65536) }
    ensures { MailedTold (present_read 0 (drop at text.now)) book.new olds.new result }
{
    put(book, 0, 0);
    let mut a = at;
    let mut old: usize = 0;
    let mut new: usize = 0;
    let mut to: usize = 1;
    // The next offset is known only when the rule is read.
    while a < text.len() {
        let (n, next) = read_any_rule(text, a, old, book, to)?;
        if rule_stays(&book[to..to + n], new) {
            put(olds, new, old as u32);
            new += 1;
            to += n;
        }
        old += 1;
        a = next;
    }
    Ok(Kept {
        present: old,
        rules: new,
        words: to,
    })
}
