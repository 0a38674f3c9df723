// The answer of a line, and how it is written. Document 01, 'Job files'.
#![tactic(auto)]

ghost use Rattle.std.specs.Prelude.{◌≡◌, ◌+◌, ◌≤◌, length};
ghost use Rattle.lists.specs.Written.{written};
ghost use Rattle.job_answers.specs.LineAnswers.{field, evaluation_text, row_text, answer_in};

use decimals::{Decimal, put_byte};
use package::found::Evaluation;
use package::refusals::{Refusal, refusal_in};
use text::{COMMA, LINE_FEED};

// What a line answers; one that measures nothing has the evaluation of zeros.
#[derive(Drop)]
pub struct Row {
    pub number: u32,
    pub answer: Result<Evaluation, Refusal>,
}

// Writes a number and the byte behind it from a place on, and answers the next place; a place stands beside the buffer as in decimals.
fn put_field<N: Decimal>(out: &mut [u8], at: usize, n: N, byte: u8) -> usize
    requires { at + length (field N.text n byte) ≤ length out.old }
    ensures { (result ≡ at + length (field N.text n byte)) × (out.new ≡ written out.old at (field N.text n byte)) }
{
    let k = n.put(out, at);
    put_byte(out, k, byte)
}

// Writes the last four numbers of an answer from a place on, and answers the next place.
fn put_evaluation(out: &mut [u8], at: usize, e: Evaluation) -> usize
    requires { at + length (evaluation_text e) ≤ length out.old }
    ensures { (result ≡ at + length (evaluation_text e)) × (out.new ≡ written out.old at (evaluation_text e)) }
{
    let verdict = put_field(out, at, e.branch, COMMA);
    let deviation = put_field(out, verdict, e.verdict, COMMA);
    let correction = put_field(out, deviation, e.deviation, COMMA);
    put_field(out, correction, e.correction, LINE_FEED)
}

// Writes the answer of a line from a place on, and answers the next place. No call of a user.
pub fn put_row(out: &mut [u8], at: usize, r: Row) -> usize
    requires { at + length (row_text (answer_in r)) ≤ length out.old }
    ensures { (result ≡ at + length (row_text (answer_in r))) × (out.new ≡ written out.old at (row_text (answer_in r))) }
{
    let refusal = put_field(out, at, r.number, COMMA);
    let branch = put_field(out, refusal, refusal_in(r.answer), COMMA);
    put_evaluation(out, branch, r.answer.unwrap_or_default())
}
