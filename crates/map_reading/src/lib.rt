// Reading an area map (document 01, "Sheets"): how many rules it has, and rule i by its area, its value and its path. Every call tests
// the sheet: 2.
#![tactic(auto, unfolding(crate::specs::Rules::count_outcome, crate::specs::Rules::rule_read, crate::specs::Rules::rule_path))]

ghost use Rattle.std.specs.Prelude.{◌≡◌};
ghost use Rattle.willow.specs.Answers.{optional_outcome, outcome, written_buffer, written_length};
ghost use Rattle.reading.specs.Reading.{bytes_or};
ghost use Rattle.map_reading.specs.Rules.{count_outcome, rule_outcome, rule_path, rule_read};

use map_rules::{Rule, lend};
use willow::Refusal;
use written::write;

// How many rules a map has.
pub fn rule_count(sheet: &[u8]) -> Result<u64, Refusal>
    ensures { outcome result ≡ count_outcome sheet.now }
{
    Ok(lend(sheet)?.count() as u64)
}

// Rule i but for its path, none past the last: they are counted from 0. `map.place(i).map(..)` in place of the `let` was tried, and the
// proof did not close: it wants a file of its own.
pub fn rule(sheet: &[u8], i: u64) -> Result<Option<Rule>, Refusal>
    ensures { rule_outcome result ≡ rule_read sheet.now i }
{
    let map = lend(sheet)?;
    let Some(k) = map.place(i) else {
        return Ok(None);
    };
    Ok(Some(map.rule(k)))
}

// The packed path of rule i, a part of the sheet; an empty part where `rule` refuses or says none.
pub fn rule_path<'a>(sheet: &'a [u8], i: u64) -> &'a [u8]
    ensures { result.now ≡ bytes_or (rule_path sheet.now i) }
{
    let Ok(map) = lend(sheet) else {
        return &sheet[..0];
    };
    match map.place(i) {
        Some(k) => map.rule_path(k).bytes,
        None => &sheet[..0],
    }
}

// The packed path of rule i written to the front of a buffer: how many bytes; none past the last rule. Refuses 2, then 15.
pub fn write_rule_path(sheet: &[u8], i: u64, out: &mut [u8]) -> Result<Option<u64>, Refusal>
    ensures result_value { optional_outcome result ≡ written_length (rule_path sheet.now i) out.old }
    ensures out_after { out.new ≡ written_buffer (rule_path sheet.now i) out.old }
{
    let map = lend(sheet)?;
    let Some(k) = map.place(i) else {
        return Ok(None);
    };
    Ok(Some(write(&map.rule_path(k).bytes, out)?))
}
