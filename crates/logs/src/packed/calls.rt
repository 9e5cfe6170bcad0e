// Making a packed log, reading its bytes and formatting it.
ghost use Rattle.std.specs.Prelude.{◌≡◌, length, if◌then◌else◌, OnOk};
ghost use Rattle.logs.specs.Images.{Describes, blank, formatted, sized};
ghost use Rattle.logs.specs.Packed.{Empty};

use super::super::image::formatting;
use super::PackedLog;
use model::{Refusal, Shape};

impl PackedLog {
    // The log over these bytes.
    pub fn new(bytes: Vec<u8>) -> PackedLog
        ensures { result.bytes.items ≡ bytes.items }
    {
        PackedLog { bytes }
    }

    // All of its bytes.
    pub fn bytes(&self) -> &[u8]
        ensures { result.now ≡ self.now.bytes.items }
    {
        self.bytes.as_slice()
    }

    // Makes the bytes an empty image in place; a length that no image has is refused and changes nothing.
    pub fn format(&mut self, shape: &Shape) -> Result<(), Refusal>
        ensures verdict { result ≡ formatted (length self.old.bytes.items) }
        ensures after { self.new.bytes.items ≡ (if sized (length self.old.bytes.items) then blank shape.now (length self.old.bytes.items) else self.old.bytes.items) }
        ensures empty { OnOk result (Empty self.new.bytes.items) }
        ensures image { OnOk result (Describes self.new.bytes.items shape.now 0) }
    {
        formatting::format(self.bytes.as_mut_slice(), shape)
    }
}
