// The report of an exported call: the numbers that it takes, a refusal's own, and what is told on success.
#![tactic(auto)]

ghost use Rattle.std.specs.Prelude.{◌≡◌};
ghost use Rattle.laws.specs.Placed.{placed};
ghost use Rattle.numbers.specs.Refusals.{refusal_number};
ghost use Rattle.report.specs.Report.{numbers_bytes, three_numbers, refusal_report};

use numbers::refusal::Refusal;
use store::lay::lay_le;

// The numbers of a report, 8 bytes each; a slice that is too short for all of them is left alone.
pub fn put_report(report: &mut [u8], numbers: &[u64])
    ensures { report.new ≡ placed (numbers_bytes numbers.now) report.old }
{
    if report.len() / 8 < numbers.len() {
        return;
    }
    let mut at = 0;
    for x in numbers {
        at = lay_le(report, at, 8, *x);
    }
}

// A refusal's own report, and its number.
pub fn refuse(report: &mut [u8], r: Refusal) -> u64
    ensures { (result ≡ refusal_number r) × (report.new ≡ placed (refusal_report r) report.old) }
{
    put_report(report, &[r.input as u64, r.place as u64, r.needed as u64]);
    r.number as u64
}

// What is told on success: 0, a place and a length; and 0, the number that such a call returns.
pub fn done(report: &mut [u8], place: usize, n: usize) -> u64
    ensures { (result ≡ 0) × (report.new ≡ placed (three_numbers 0 place n) report.old) }
{
    put_report(report, &[0, place as u64, n as u64]);
    0
}
