// The four lines of a rule, and the rules of a book.
ghost use Rattle.std.specs.Prelude.{◌≡◌, ◌+◌, ◌≤◌, length, set};
ghost use Rattle.text.specs.BookText.{rule_read, rules_read};
ghost use Rattle.text.specs.Told.BookTold.{vars_read, VarsTold, sides_read, RulesTold};

use crate::key::{read_number_line, read_side};
use book::limits::{MOST_RULES, MOST_VARS};
use term::lent::put;

// The last rule of a book has this number.
const LAST_RULE: u32 = MOST_RULES - 1;

// A rule has so many lines.
pub const LINES: usize = 4;

// The lines of the rule 0; two lines stand before them.
pub const RULE_LINE: usize = 3;

const VARS_LINE: usize = 4;

const LEFT_LINE: usize = 5;

const RIGHT_LINE: usize = 6;

// Reads the line `vars=` of the rule with this number: its variables and the offset after the line, or the line, which is not in form.
pub fn read_vars_line(text: &[u8], at: usize, number: usize) -> Result<(u32, usize), usize>
    requires { (at ≤ length text.now) × (number ≤ 65536) }
    ensures { VarsTold (vars_read number) number text.now at result }
{
    read_number_line(text, at, b"vars=", MOST_VARS).ok_or(LINES * number + VARS_LINE)
}

// Reads the lines `rule=` and `vars=` of the rule with this number.
fn read_vars(text: &[u8], at: usize, number: usize) -> Result<(u32, usize), usize>
    requires { (at ≤ length text.now) × (number ≤ 63) }
    ensures { VarsTold (rule_read number) number text.now at result }
{
    let line = LINES * number + RULE_LINE;
    let (k, vars_at) = read_number_line(text, at, b"rule=", LAST_RULE).ok_or(line)?;
    if k as usize != number {
        return Err(line);
    }
    read_vars_line(text, vars_at, number)
}

// Puts what stands before the sides of a rule.
fn put_header(out: &mut [u32], to: usize, vars: u32, left: usize, right: usize)
    requires { (to ≤ 60000) × (left ≤ 64) × (right ≤ 64) }
    ensures { out.new ≡ set (set (set out.old to vars) (to + 1) left) (to + 2) right }
{
    put(out, to, vars);
    put(out, to + 1, left as u32);
    put(out, to + 2, right as u32);
}

// Reads the lines `left=` and `right=`; the words of the rule go into `out` from `to` on. So many words and the offset after their lines, or the first line that is not in form.
pub fn read_sides(
    text: &[u8],
    at: usize,
    number: usize,
    vars: u32,
    out: &mut [u32],
    to: usize,
) -> Result<(usize, usize), usize>
    requires { (at ≤ length text.now) × (number ≤ 65536) × (to ≤ 60000) }
    ensures { RulesTold (sides_read number vars) 131 text.now at to out.old out.new result }
{
    let line = LINES * number;
    let (left, right_at) = read_side(text, at, b"left=", out, to + 3).ok_or(line + LEFT_LINE)?;
    let (right, next) = read_side(text, right_at, b"right=", out, to + 3 + left).ok_or(
        line + RIGHT_LINE,
    )?;
    put_header(out, to, vars, left, right);
    Ok((3 + left + right, next))
}

// Reads the lines of the rule with this number; its words go into `out` from `to` on.
pub fn read_rule(
    text: &[u8],
    at: usize,
    number: usize,
    out: &mut [u32],
    to: usize,
) -> Result<(usize, usize), usize>
    requires { (at ≤ length text.now) × (number ≤ 63) × (to ≤ 60000) }
    ensures { RulesTold (rule_read number) 131 text.now at to out.old out.new result }
{
    let (vars, next) = read_vars(text, at, number)?;
    read_sides(text, next, number, vars, out, to)
}

// Reads so many rules; their words go into `out` from 1 on.
pub fn read_rules(
    text: &[u8],
    at: usize,
    count: usize,
    out: &mut [u32],
) -> Result<(usize, usize), usize>
    requires { (at ≤ length text.now) × (count ≤ 64) }
    ensures { RulesTold (rules_read 0 count) 8384 text.now at 1 out.old out.new result }
{
    let mut a = at;
    let mut n: usize = 0;
    for number in 0..count {
        let (m, next) = read_rule(text, a, number, out, n + 1)?;
        n += m;
        a = next;
    }
    Ok((n, a))
}
