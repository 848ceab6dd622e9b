// A device that a bench can put on a code. The supplied kinds never balk either: `willing` of their `write`.
ghost use Rattle.std.specs.Prelude.{◌≡◌, nat_lt};
ghost use Rattle.device.specs.Device.{set_on};

use super::Code;
use super::devices::Device;

pub trait Supplied: Device {
    // Puts the device on a code that it has, without a write: the tally stays. An absent code is no, and changes nothing;
    // it is the one cause, so there is no error to name. The kind stays.
    fn set(&mut self, code: Code) -> bool
        ensures kind { Self.kind self.new ≡ Self.kind self.old }
        ensures has { result ≡ nat_lt code (Self.model self.old).count }
        ensures put { Self.model self.new ≡ set_on (Self.model self.old) code };
}
