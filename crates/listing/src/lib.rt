// What a table lists: the parts and the rules of a board, each in order.

#![tactic(auto)]

ghost use Rattle.std.specs.Prelude.{◌≡◌, ◌≤◌, map, vec_len};
ghost use Rattle.std.specs.List.{All};
ghost use Rattle.device.specs.Device.{Fresh};
ghost use Rattle.listing.specs.Parts.{part_figures, part_model};
ghost use Rattle.listing.specs.Lists.{product};

use table::Rule;

pub mod admit;
mod entry;
pub mod part;
pub mod read;

pub use part::Part;

#[derive(Drop)]
pub struct Listing {
    parts: Vec<Part>,
    rules: Vec<Rule>,
    // The product of the parts' counts.
    states: usize,
    ghost few: { vec_len parts ≤ 6 },
    ghost ruled: { vec_len rules ≤ 24 },
    ghost counted: { states ≡ product (map part_figures parts.items) },
    ghost bounded: { states ≤ 4096 },
    // Every part is as it was made: at code 0, with no write counted.
    ghost fresh: { All (λ p. Fresh (part_model p)) parts.items },
}
