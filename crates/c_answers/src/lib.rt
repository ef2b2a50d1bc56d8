// What C gets of an entry's answer: its number, and the facts at the front of a list.
#![tactic(auto)]

ghost use Rattle.std.specs.Prelude.{◌≡◌, [], ◌∷◌, ◌++◌, ◌≤◌, length, drop, IfOk, OnErr};
ghost use Rattle.base.specs.Refusals.{refusal, answered};
ghost use Rattle.rules.specs.Rows.{too_large, too_short};
ghost use Rattle.c_answers.specs.Outcomes.{status, received, one_fact, index_fact, facts_list, run_facts, three_bytes};
ghost use Rattle.c_answers.specs.Room.{FactsFit};

use base::Refusal;
use color::Rgb8;
use refusals::too_large;
use rules::{Facts, Processed};

// Rows 1 and 2 of an entry that has a list of facts: a side above 512, or fewer places than facts.
#[tactic(auto, unfolding(base::specs::Refusals::answered, base::specs::Refusals::unless, base::specs::Refusals::refusal, rules::specs::Rows::too_large, rules::specs::Rows::too_short))]
pub fn facts_rows(h: usize, w: usize, have: usize, need: usize) -> Result<(), Refusal>
    ensures { result ≡ answered (refusal (too_large h w ∷ too_short have need ∷ [])) tt }
{
    if too_large(h, w) {
        return Err(Refusal::SideTooLong);
    }
    if have < need {
        return Err(Refusal::ListTooShort);
    }
    Ok(())
}

// The number of an entry that gives nothing but its outputs.
pub fn number(answer: Result<(), Refusal>) -> u32
    ensures { result ≡ status answer }
{
    match answer {
        Ok(()) => 0,
        Err(e) => u32::from(e.number()),
    }
}

// The number of an entry that hands out numbers, which go to the front of a list.
fn tell<T: Copy, const N: usize>(numbers: Result<[T; N], Refusal>, list: &mut [T]) -> u32
    requires { N ≤ length list.old }
    ensures value { result ≡ status numbers }
    ensures front { IfOk numbers (λ found. list.new ≡ found ++ drop N list.old) }
    ensures same { OnErr numbers (list.new ≡ list.old) }
{
    match numbers {
        Ok(found) => {
            list[..N].copy_from_slice(&found);
            0
        }
        Err(e) => u32::from(e.number()),
    }
}

// A count is the one fact.
fn one_fact(n: u32) -> [u32; 1]
    ensures { result ≡ one_fact n }
{
    [n]
}

// The fact of an entry that counts.
#[tactic(auto, unfolding(rules::specs::Sheet::over))]
pub fn tell_count(answer: Result<u32, Refusal>, facts: &mut [u32]) -> u32
    requires { 1 ≤ length facts.old }
    ensures value { result ≡ status answer }
    ensures facts_after { facts.new ≡ received one_fact answer facts.old }
{
    tell(answer.map(one_fact), facts)
}

// An index as a fact: one more, and 0 for none.
fn index_fact(index: Option<u32>) -> u32
    requires { index_fact index ≤ 256 }
    ensures { result ≡ index_fact index }
{
    match index {
        None => 0,
        Some(i) => i + 1,
    }
}

// Height, width, colours, index and clipped.
fn facts_list(f: Facts) -> [u32; 5]
    requires { FactsFit f }
    ensures { result ≡ facts_list f }
{
    [
        f.height as u32,
        f.width as u32,
        f.colours as u32,
        index_fact(f.outline_index),
        u32::from(f.outline_clipped),
    ]
}

// The same, and the passes of both cleanings.
fn run_facts(p: Processed) -> [u32; 7]
    requires { FactsFit p.facts }
    ensures { result ≡ run_facts p }
{
    let [height, width, colours, index, clipped] = facts_list(p.facts);
    [height, width, colours, index, clipped, p.passes, p.again]
}

// The facts of a sheet that was outlined.
#[tactic(auto, unfolding(rules::specs::Sheet::over))]
pub fn tell_outline(answer: Result<Facts, Refusal>, facts: &mut [u32]) -> u32
    requires facts_fit { IfOk answer FactsFit }
    requires in_bounds { 5 ≤ length facts.old }
    ensures value { result ≡ status answer }
    ensures facts_after { facts.new ≡ received facts_list answer facts.old }
{
    tell(answer.map(facts_list), facts)
}

// The facts of a sheet that was run, and the passes of both cleanings.
#[tactic(auto, unfolding(rules::specs::Sheet::over))]
pub fn tell_run(answer: Result<Processed, Refusal>, facts: &mut [u32]) -> u32
    requires facts_fit { IfOk answer (λ p. FactsFit p.facts) }
    requires in_bounds { 7 ≤ length facts.old }
    ensures value { result ≡ status answer }
    ensures facts_after { facts.new ≡ received run_facts answer facts.old }
{
    tell(answer.map(run_facts), facts)
}

// Red, green and blue.
fn three_bytes(c: Rgb8) -> [u8; 3]
    ensures { result ≡ three_bytes c }
{
    [c.r, c.g, c.b]
}

// The three bytes of a colour.
#[tactic(auto, unfolding(rules::specs::Sheet::over))]
pub fn tell_colour(answer: Result<Rgb8, Refusal>, out: &mut [u8]) -> u32
    requires { 3 ≤ length out.old }
    ensures value { result ≡ status answer }
    ensures out_after { out.new ≡ received three_bytes answer out.old }
{
    tell(answer.map(three_bytes), out)
}
