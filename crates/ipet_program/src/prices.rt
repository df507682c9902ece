//! What the places of a net cost.

ghost use Rattle.std.specs.Prelude.{◌≡◌, ℕ, All, IfOk, length};
ghost use Rattle.cache_config.specs.Instructions.{costs_of};
ghost use Rattle.net_model.specs.Units.{content_at};
ghost use Rattle.ipet_program.specs.Costs.{content_cost, content_full};
ghost use Rattle.ipet_program.specs.Programs.{FitsImage, IsUnitAt, full_price, place_price};
ghost use Rattle.ipet_program.specs.Sums.{numbered};
ghost use Rattle.ipet_program.specs.Tables.{IsFullPrice, IsPrice};

use crate::price::{full_price, unit_price};
use cache_config::Profile;
use code_units::content_at;
use elf_mips::Image;
use flow_net::Net;
use net_model::Content;
use std::alloc::{AllocError, Global};

/// The cycles of the unit at an address where one stands, with the first stage of each access.
fn price_at(image: &Image, profile: &Profile, address: u32) -> u64
    requires { IsUnitAt image.now address }
    ensures value { (number : ℕ) →
        result ≡ content_cost (costs_of profile.now) number (content_at image.now address) address }
    ensures priced { IsPrice result }
{
    match content_at(image, address) {
        Content::Unit(unit) => unit_price(profile, &unit),
        Content::Fault { .. } => unreachable!(),
    }
}

/// The cycles of the unit of each place, with the first stage of each access.
pub fn prices_of(
    alloc: Global,
    net: &Net,
    profile: &Profile,
    image: &Image,
) -> Result<Vec<u64>, AllocError>
    requires { FitsImage image.now net.now }
    ensures prices { IfOk result (λ prices.
        prices.items ≡ numbered (place_price profile.now image.now net.now) (length net.now.places)) }
    ensures count { IfOk result (λ prices. length prices.items ≡ length net.now.places) }
    ensures priced { IfOk result (λ prices. All IsPrice prices.items) }
{
    let mut prices = Vec::new(alloc);
    for place in net.places.as_slice() {
        prices.push(price_at(image, profile, place.address))?;
    }
    Ok(prices)
}

/// The most cycles of the unit at an address where one stands.
fn full_at(image: &Image, profile: &Profile, address: u32) -> u64
    requires { IsUnitAt image.now address }
    ensures value { (number : ℕ) →
        result ≡ content_full (costs_of profile.now) number (content_at image.now address) address }
    ensures priced { IsFullPrice result }
{
    match content_at(image, address) {
        Content::Unit(unit) => full_price(profile, &unit),
        Content::Fault { .. } => unreachable!(),
    }
}

/// The most cycles of the unit of each place.
pub fn full_prices_of(
    alloc: Global,
    net: &Net,
    profile: &Profile,
    image: &Image,
) -> Result<Vec<u64>, AllocError>
    requires { FitsImage image.now net.now }
    ensures prices { IfOk result (λ prices.
        prices.items ≡ numbered (full_price profile.now image.now net.now) (length net.now.places)) }
    ensures count { IfOk result (λ prices. length prices.items ≡ length net.now.places) }
    ensures priced { IfOk result (λ prices. All IsFullPrice prices.items) }
{
    let mut prices = Vec::new(alloc);
    for place in net.places.as_slice() {
        prices.push(full_at(image, profile, place.address))?;
    }
    Ok(prices)
}
