//! A test of whether a class table has a row for each access of a net.

ghost use Rattle.std.specs.Prelude.{◌≡◌, All, length};
ghost use Rattle.std.specs.Bool.{OnTrue};
ghost use Rattle.cache_config.specs.Chains.{side_of};
ghost use Rattle.flow_net.specs.Numbers.{IsNumberOf};
ghost use Rattle.flow_net.specs.Scopes.{HasScopes};
ghost use Rattle.age_model.specs.Classes.{HasRows, IsRowOf, NamesHolding, chain_length};
ghost use Rattle.lru_concrete.specs.Chains.{chain};
ghost use Rattle.net_model.specs.Accesses.{kind_of};

use cache_config::Profile;
use flow_net::{Access, Class, ClassTable, Level2, Net, Role};
use lru_concrete::{Level, Side};

/// How many of the caches serve a side.
fn serving(levels: &[Level], side: Side) -> usize
    ensures { result ≡ length (chain side levels.now) }
{
    let mut count = 0;
    for level in levels {
        if level.serves.serves(side) {
            count += 1;
        }
    }
    count
}

/// How many caches an access goes through.
fn chain_length(levels: &[Level], role: Role) -> usize
    ensures { result ≡ chain_length levels.now (side_of (kind_of role)) }
{
    match role {
        Role::Fetch | Role::Slot => serving(levels, Side::Fetch),
        Role::Load => serving(levels, Side::Load),
        Role::Store => 0,
    }
}

/// Whether a first miss names a scope that holds the place.
fn names_holding(net: &Net, place: u32, class: Class) -> bool
    requires scopes { HasScopes net.now }
    requires place { IsNumberOf net.now.places place }
    ensures { OnTrue result (NamesHolding net.now place class) }
{
    match class {
        Class::First(scope) => net.held(place, scope),
        _ => true,
    }
}

fn are_firsts(net: &Net, place: u32, row: &[Level2]) -> bool
    requires scopes { HasScopes net.now }
    requires place { IsNumberOf net.now.places place }
    ensures { OnTrue result (All (λ entry. NamesHolding net.now place entry.class) row.now) }
{
    for entry in row {
        if !names_holding(net, place, entry.class) {
            return false;
        }
    }
    true
}

fn is_row_of(net: &Net, levels: &[Level], access: Access, row: &[Level2]) -> bool
    requires scopes { HasScopes net.now }
    requires place { IsNumberOf net.now.places access.place }
    ensures { OnTrue result (IsRowOf net.now levels.now access row.now) }
{
    row.len() == chain_length(levels, access.role) && are_firsts(net, access.place, row)
}

/// Whether the table has a row for each access.
pub fn has_rows(net: &Net, profile: &Profile, classes: &ClassTable) -> bool
    requires scopes { HasScopes net.now }
    requires places { All (λ access. IsNumberOf net.now.places access.place) net.now.accesses }
    ensures { OnTrue result (HasRows net.now profile.now.levels classes.now) }
{
    let accesses = net.accesses.as_slice();
    let rows = classes.rows.as_slice();
    let levels = profile.levels.as_slice();
    if rows.len() != accesses.len() {
        return false;
    }
    for index in 0..accesses.len() {
        if !is_row_of(net, levels, accesses[index], rows[index].as_slice()) {
            return false;
        }
    }
    true
}
