//! A test of whether units of an image stand at the places of a net.

ghost use Rattle.std.specs.Bool.{OnTrue};
ghost use Rattle.ipet_program.specs.Programs.{FitsImage, IsUnitAt};

use code_units::content_at;
use elf_mips::Image;
use flow_net::Net;
use net_model::Content;

fn is_unit_at(image: &Image, address: u32) -> bool
    ensures stands { OnTrue result (IsUnitAt image.now address) }
{
    match content_at(image, address) {
        Content::Unit(_) => true,
        Content::Fault { .. } => false,
    }
}

/// Whether a unit stands at each place.
pub fn fits_image(image: &Image, net: &Net) -> bool
    ensures fits { OnTrue result (FitsImage image.now net.now) }
{
    for place in net.places.as_slice() {
        if !is_unit_at(image, place.address) {
            return false;
        }
    }
    true
}
