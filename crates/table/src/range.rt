// The ranges of the figures of a record.
ghost use Rattle.std.specs.Prelude.{◌≡◌};
ghost use Rattle.device.specs.Figures.{levels_ok};
ghost use Rattle.table.specs.Bytes.{words};
ghost use Rattle.table.specs.Meaning.{meant};
ghost use Rattle.table.specs.Records.{figures_ok, rule_ok, figure_ok};

use super::record::Record;
use super::rule::Rule;
use device::limits::{is_divider, is_divisors, is_level, is_linear};
use device::{Code, TOP_LEVEL};

// A rule's figure: 0 to 5,000,000.
fn is_figure(figure: u32) -> bool
    ensures { result ≡ figure_ok figure }
{
    figure <= TOP_LEVEL
}

// Each number of four bytes a level: as `device::limits::are_levels`, over bytes. One text for both would take an iterator, of
// which a clause tells no list.
fn are_levels(bytes: &[u8]) -> bool
    ensures { result ≡ levels_ok (words bytes.now) }
{
    let (fours, _) = bytes.as_chunks();
    fours.iter().copied().map(u32::from_le_bytes).all(is_level)
}

// The figures of a rule in their ranges.
fn is_rule(rule: &Rule) -> bool
    ensures { result ≡ rule_ok rule.now }
{
    match *rule {
        Rule::Window { floor, ceiling, .. } => floor <= ceiling && is_figure(ceiling),
        Rule::Need { above, least, .. } => is_figure(above) && is_figure(least),
        Rule::Spread { most, .. } | Rule::Step { most, .. } | Rule::Cap { most, .. } => {
            is_figure(most)
        }
    }
}

// Every figure of a record in its range.
pub(crate) fn in_range(record: &Record<'_>) -> bool
    ensures { result ≡ figures_ok (meant «record».now) }
{
    match *record {
        Record::LinearRail {
            lowest,
            step,
            count,
        } => is_linear(lowest, step, Code::from(count)),
        Record::TableRail { levels } => are_levels(levels),
        Record::DividerClock { parent, count } => is_divider(parent, Code::from(count)),
        Record::TreeClock { divisors, parents } => {
            is_divisors(Code::from(divisors)) && are_levels(parents)
        }
        Record::Rule(rule) => is_rule(&rule),
    }
}
