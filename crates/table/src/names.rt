// The parts that a rule names.
ghost use Rattle.std.specs.Prelude.{◌≡◌, ℕ, Option};
ghost use Rattle.device.specs.declared.kind.Kind.{Kind as PartKind};
ghost use Rattle.table.specs.Names.{is_of, names_ok};

use super::rule::Rule;
use device::Kind;

// What has parts, each of a kind. A trait and no closure: a clause names the kinds of all parts; of a closure it could
// tell only what single calls answered.
pub trait Kinds {
    // The kind of each part, by its number; none of an absent part.
    ghost kinds: { Self → ℕ → Option PartKind };

    // The kind of the part of this number.
    fn kind_of(&self, part: u8) -> Option<Kind>
        ensures { result ≡ kinds self.now part };
}

// Whether the part of this number is there and of this kind.
fn has<K: Kinds>(parts: &K, part: u8, kind: Kind) -> bool
    ensures { result ≡ is_of kind (K.kinds parts.now part) }
{
    parts.kind_of(part) == Some(kind)
}

impl Rule {
    // Whether the rule names rails and clocks that are there, and no rail twice: each sort of rule has parts of its own.
    pub fn names<K: Kinds>(&self, parts: &K) -> bool
        ensures { result ≡ names_ok (K.kinds parts.now) self.now }
    {
        match self {
            Rule::Window { rail, .. } | Rule::Step { rail, .. } => has(parts, *rail, Kind::Rail),
            Rule::Spread { rail, other, .. } => has(parts, *rail, Kind::Rail)
                && has(parts, *other, Kind::Rail)
                && *rail != *other,
            Rule::Need { clock, rail, .. } => has(parts, *clock, Kind::Clock)
                && has(parts, *rail, Kind::Rail),
            Rule::Cap { clock, .. } => has(parts, *clock, Kind::Clock),
        }
    }
}
