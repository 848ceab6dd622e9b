// Which layer of the product sent a call back.
ghost use Rattle.std.specs.Prelude.{◌≡◌};
ghost use Rattle.answer.specs.Answers.{layer_number};

#[derive(Clone, Copy, Debug, PartialEq, Eq)]
pub enum Layer {
    // The constraint table, the devices and the banks made from it.
    Table = 1,
    // The search for islands and plans.
    Planner = 2,
    // The walk along a plan.
    Crossing = 3,
    // A device's own answer to a write.
    Device = 4,
}

impl Layer {
    // The number by which a layer is known outside.
    pub fn number(&self) -> u8
        ensures { result ≡ layer_number self.now }
    {
        *self as u8
    }
}
