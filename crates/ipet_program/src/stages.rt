//! The further stages of the accesses of a net.

ghost use Rattle.std.specs.Prelude.{◌≡◌, ◌+◌, ◌*◌, ◌≤◌, ◌^◌, ◌++◌, suc, All, IfOk, OnOk, length};
ghost use Rattle.cache_config.specs.Instructions.{costs_of};
ghost use Rattle.flow_net.specs.Numbers.{IsNumberOf, IsNumberOrZero};
ghost use Rattle.flow_net.specs.Scopes.{HasScopes, Holds, scopes_round};
ghost use Rattle.age_model.specs.Classes.{HasRows, IsRowOf, NamesHolding};
ghost use Rattle.ipet_program.specs.StageTables.{IsStageOf};
ghost use Rattle.ipet_program.specs.Stages.{firsts_of, from_scope, further_stages, stages_from, stops_at};

use crate::program::Stage;
use age_model::kind_of;
use cache_config::Profile;
use flow_net::{Access, Class, ClassTable, Letter, Level2, Net};
use std::alloc::{AllocError, Global};
use wcet_io::List;

/// Whether an access never goes on from a cache: it never arrives there, or always finds its block.
fn stops_at(entry: Level2) -> bool
    ensures { result ≡ stops_at entry }
{
    matches!(entry.letter, Letter::Never) || matches!(entry.class, Class::Hit)
}

/// The scopes from this one inward to the innermost one of a place, in a step for each of them.
fn scopes_from(alloc: Global, net: &Net, place: u32, scope: u32) -> Result<List<u32>, AllocError>
    requires scopes { HasScopes net.now }
    requires held { Holds net.now scope place }
    ensures scopes { IfOk result (λ scopes. scopes ≡ from_scope scope (scopes_round net.now place)) }
    ensures numbers { IfOk result (All (IsNumberOrZero net.now.loops)) }
{
    let loops = net.loops.as_slice();
    let mut scopes = Vec::new(alloc);
    let mut around = net.places.as_slice()[place as usize - 1].scope;
    while around != scope {
        scopes.push(around)?;
        around = loops[around as usize - 1].outer;
    }
    scopes.push(scope)?;
    scopes.reverse();
    Ok(List::from_vec(scopes))
}

/// The scopes in each stay of which an access at a place with this class goes on at most once.
fn firsts_of(alloc: Global, net: &Net, place: u32, class: Class) -> Result<List<u32>, AllocError>
    requires scopes { HasScopes net.now }
    requires names { NamesHolding net.now place class }
    ensures firsts { IfOk result (λ firsts. firsts ≡ firsts_of net.now place class) }
    ensures numbers { IfOk result (All (IsNumberOrZero net.now.loops)) }
{
    match class {
        Class::First(scope) => scopes_from(alloc, net, place, scope),
        _ => Ok(List::new(alloc)),
    }
}

/// Adds the stages of an access, by its row of the class table. Their columns follow those of the arcs and of the
/// stages before them.
fn add_stages(
    alloc: Global,
    net: &Net,
    profile: &Profile,
    number: u32,
    access: Access,
    row: &[Level2],
    stages: &mut Vec<Stage>,
) -> Result<(), AllocError>
    requires scopes { HasScopes net.now }
    requires place { IsNumberOf net.now.places access.place }
    requires row { IsRowOf net.now profile.now.levels access row.now }
    requires few { length net.now.arcs + length stages.old.items ≤ 2 ^ 27 }
    requires known { All (IsStageOf net.now) stages.old.items }
    ensures stages { OnOk result (stages.new.items ≡ stages.old.items
        ++ stages_from net.now (costs_of profile.now) number access 0 1
        (suc (length net.now.arcs + length stages.old.items)) row.now) }
    ensures known { OnOk result (All (IsStageOf net.now) stages.new.items) }
    ensures few { OnOk result (length stages.new.items ≤ length stages.old.items + 3) }
{
    let kind = kind_of(access.role);
    let mut level = 1;
    let mut before = 0;
    for entry in row {
        stages.push(Stage {
            access: number,
            place: access.place,
            level,
            before,
            latency: profile.stage_latency(kind, level + 1),
            never: stops_at(*entry),
            firsts: firsts_of(alloc, net, access.place, entry.class)?,
        })?;
        level += 1;
        before = (net.arcs.as_slice().len() + stages.len()) as u32;
    }
    Ok(())
}

/// The further stages of all accesses, access by access.
pub fn further_stages(
    alloc: Global,
    net: &Net,
    classes: &ClassTable,
    profile: &Profile,
) -> Result<Vec<Stage>, AllocError>
    requires scopes { HasScopes net.now }
    requires places { All (λ access. IsNumberOf net.now.places access.place) net.now.accesses }
    requires few { length net.now.arcs ≤ 2 ^ 25 }
    requires made { length net.now.accesses ≤ 3 * 2 ^ 16 }
    requires rows { HasRows net.now profile.now.levels classes.now }
    ensures stages { IfOk result (λ stages.
        stages.items ≡ further_stages net.now (costs_of profile.now) classes.now) }
    ensures known { IfOk result (λ stages. All (IsStageOf net.now) stages.items) }
    ensures few { IfOk result (λ stages. length stages.items ≤ 9 * 2 ^ 16) }
{
    let accesses = net.accesses.as_slice();
    let rows = classes.rows.as_slice();
    let mut stages = Vec::new(alloc);
    for index in 0..accesses.len() {
        let row = rows[index].as_slice();
        add_stages(
            alloc,
            net,
            profile,
            index as u32 + 1,
            accesses[index],
            row,
            &mut stages,
        )?;
    }
    Ok(stages)
}
