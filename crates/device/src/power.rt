// What a layer knows of the power below it.
ghost use Rattle.device.specs.Meaning.{on_after, told_after};
ghost use Rattle.std.specs.Prelude.{◌≡◌, true};

use crate::DeviceFault;

// Whether a layer is on, and the origin that it handed up where power failed last. No call answers by the second:
// it is what the device's model says was told.
#[derive(Clone, Copy, PartialEq, Eq, Debug)]
pub struct Power {
    pub on: bool,
    pub told: u8,
}

impl Power {
    // A layer is on at first, and has told nothing.
    pub fn new() -> Self
        ensures on { result.on ≡ true }
        ensures told { result.told ≡ 0 }
    {
        Power { on: true, told: 0 }
    }

    // Hands up what a call below has answered: where power failed in it, the layer is off from then on.
    pub fn hand_up(&mut self, answer: Result<(), DeviceFault>) -> Result<(), DeviceFault>
        ensures answer { result ≡ answer }
        ensures on { self.new.on ≡ on_after answer }
        ensures told { self.new.told ≡ told_after self.old.told answer }
    {
        self.on = true;
        if let Err(DeviceFault::Power(origin)) = answer {
            self.on = false;
            self.told = origin;
        }
        answer
    }
}
