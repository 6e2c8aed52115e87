// The rules of an area map, read by their position from 0, for a host in another language. A map is a sheet in a lent buffer; a slice
// is a pointer and then a length. Nothing is required of the host but that a buffer is as long as it says and that a buffer to write
// overlaps no other. The answer is a struct of numbers, as a call for C passes it.
#![tactic(auto)]

ghost use Rattle.std.specs.Prelude.{◌≡◌};
ghost use Rattle.willow.specs.Answers.{written_buffer, written_length};
ghost use Rattle.convention.specs.Exports.{given, itself};
ghost use Rattle.area_kinds.specs.AreaKinds.{parts};
ghost use Rattle.map_reading.specs.Rules.{count_outcome, rule_outcome, rule_path, rule_read};
ghost use Rattle.host_map_reading.specs.MapExports.{given_rule, rule_answer};

use convention::{Answer, answered, answered_if_any};
use kinds::{end_kind, end_value, subspace_kind, subspace_value};
use map_rules::Rule;
use willow::Refusal;

// A rule as an answer: 0, a refusal's number or 255 for none; its area but for the path, of which it has the count; its value. Zeros
// unless there is one, and 0 beside kind 0.
#[repr(C)]
#[derive(Clone, Copy, Default)]
pub struct RuleAnswer {
    pub status: u64,
    pub subspace_kind: u64,
    pub subspace: u64,
    pub count: u64,
    pub start: u64,
    pub end_kind: u64,
    pub end: u64,
    pub value: u64,
}

// A rule that there is.
fn given_rule(rule: Rule) -> RuleAnswer
    ensures { result ≡ rule_answer (parts rule.area) rule.value }
{
    let area = rule.area;
    RuleAnswer {
        status: 0,
        subspace_kind: subspace_kind(area.subspace),
        subspace: subspace_value(area.subspace),
        count: area.count,
        start: area.times.start,
        end_kind: end_kind(area.times.end),
        end: end_value(area.times.end),
        value: rule.value,
    }
}

// A rule that there may not be.
impl From<Result<Option<Rule>, Refusal>> for RuleAnswer {
    ghost from_gives = { λ r a. a ≡ given_rule (rule_outcome r) };

    fn from(read: Result<Option<Rule>, Refusal>) -> RuleAnswer {
        match convention::value_or_status(read) {
            Err(status) => RuleAnswer {
                status,
                ..RuleAnswer::default()
            },
            Ok(rule) => given_rule(rule),
        }
    }
}

// How many rules a map has. Refuses 2.
pub fn wotskrale_map_count(sheet: &[u8]) -> Answer
    ensures { result ≡ given itself (count_outcome sheet.now) }
{
    answered(map_reading::rule_count(sheet))
}

// Rule i but for its path; none past the last. Refuses 2.
pub fn wotskrale_map_rule(sheet: &[u8], i: u64) -> RuleAnswer
    ensures { result ≡ given_rule (rule_read sheet.now i) }
{
    RuleAnswer::from(map_reading::rule(sheet, i))
}

// The packed path of rule i written to the front of a buffer; answers its length, none past the last. Refuses 2, then 15.
pub fn wotskrale_map_rule_path(sheet: &[u8], i: u64, out: &mut [u8]) -> Answer
    ensures value { result ≡ given itself (written_length (rule_path sheet.now i) out.old) }
    ensures out_after { out.new ≡ written_buffer (rule_path sheet.now i) out.old }
{
    answered_if_any(map_reading::write_rule_path(sheet, i, out))
}
