//! Programs of small nets, with every row, value and cap worked out by hand.

use crate::class_rows::has_rows;
use crate::forward::is_forward;
use crate::standing::fits_image;
use crate::{BuildFault, Program, build};
use cache_config::Profile;
use elf_mips::{Image, read_image};
use flow_net::{Access, ClassTable, Context, Level2, LoopInst, Net, NetArc, Place, Role};
use std::alloc::{AllocError, Global};
use std::test::Fail;
use wcet_io::List;

/// Where the code begins.
pub const START: u32 = 0x0040_0000;

/// addiu $8, $0, 5; addiu $8, $8, -1; bne $8, $0, back to the second; nop; jr $31; nop. An addiu costs
/// 11 cycles, and the bne and the jr with their nops 22.
pub const COUNTED: [u32; 6] = [0x2408_0005, 0x2508_FFFF, 0x1500_FFFE, 0, 0x03E0_0008, 0];

/// A row: whether it is an equation, its terms, and its right side.
pub type Line<'a> = (bool, &'a [(u32, i64)], i64);

/// A net: the addresses of its places with their scopes, its arcs, the headers, bounds and outer scopes of
/// its loops, and the places of its accesses, each with its row of the class table.
#[derive(Drop)]
pub struct Plan<'a> {
    pub places: &'a [(u32, u32)],
    pub arcs: &'a [(u32, u32)],
    pub loops: &'a [(u32, u32, u32)],
    pub accesses: &'a [(u32, Role, &'a [Level2])],
}

/// The image of a big-endian MIPS I executable of these words.
fn image_of(alloc: Global, words: &[u32]) -> Result<Image, Fail> {
    if words.len() > 100 {
        return Err("too many words".into());
    }
    let size = 4 * words.len() as u32;
    let mut file = Vec::new(alloc);
    let head = [
        0x7F45_4C46,
        0x0102_0100,
        0,
        0,
        0x0002_0008,
        1,
        START,
        52,
        0,
        0,
        0x0034_0020,
        0x0001_0028,
        0,
    ];
    for word in head
        .iter()
        .chain(&[1, 84, START, START, size, size, 5, 4])
        .chain(words)
    {
        file.extend_from_slice(&word.to_be_bytes())?;
    }
    if file.len() > 1000 {
        return Err("a file of another length".into());
    }
    Ok(read_image(alloc, &file)?)
}

fn net_of(alloc: Global, plan: &Plan) -> Result<Net, AllocError> {
    let mut net = Net {
        contexts: List::new(alloc),
        places: List::new(alloc),
        arcs: List::new(alloc),
        loops: List::new(alloc),
        accesses: List::new(alloc),
    };
    net.contexts.push(Context {
        parent: 0,
        site: 0,
        target: START,
    })?;
    for (address, scope) in plan.places {
        net.places.push(Place {
            context: 0,
            address: *address,
            scope: *scope,
        })?;
    }
    for (from, to) in plan.arcs {
        net.arcs.push(NetArc {
            from: *from,
            to: *to,
        })?;
    }
    for (place, role, _) in plan.accesses {
        net.accesses.push(Access {
            place: *place,
            role: *role,
            at: START,
        })?;
    }
    for (header, bound, outer) in plan.loops {
        net.loops.push(LoopInst {
            header: *header,
            bound: *bound,
            outer: *outer,
        })?;
    }
    Ok(net)
}

/// The class table of the rows of a plan's accesses.
fn classes_of(alloc: Global, plan: &Plan) -> Result<ClassTable, AllocError> {
    let mut rows = List::new(alloc);
    for (_, _, entries) in plan.accesses {
        let mut row = Vec::new(alloc);
        row.extend_from_slice(entries)?;
        rows.push(List::from_vec(row))?;
    }
    Ok(ClassTable { rows })
}

/// The program of a net of this code, under a profile.
pub fn built_under(
    alloc: Global,
    words: &[u32],
    plan: &Plan,
    profile: &Profile,
) -> Result<Result<Program, BuildFault>, Fail> {
    let image = image_of(alloc, words)?;
    let net = net_of(alloc, plan)?;
    let classes = classes_of(alloc, plan)?;
    if !is_forward(&net) || !fits_image(&image, &net) {
        return Err("a net of another kind".into());
    }
    if !has_rows(&net, profile, &classes) {
        return Err("a class table of another kind".into());
    }
    Ok(build(alloc, &net, &classes, profile, &image))
}

/// The program of a net of the counted loop's code, under the plain profile.
fn built(alloc: Global, plan: &Plan) -> Result<Result<Program, BuildFault>, Fail> {
    built_under(alloc, &COUNTED, plan, &Profile::plain(alloc))
}

/// Whether the program has these rows.
pub fn are_rows(program: &Program, lines: &[Line]) -> bool {
    let rows = program.rows.as_slice();
    if rows.len() != lines.len() {
        return false;
    }
    for (row, (equal, terms, right)) in rows.iter().zip(lines) {
        let found = row.terms.as_slice();
        if row.equal != *equal || row.right != *right || found.len() != terms.len() {
            return false;
        }
        for (term, (column, factor)) in found.iter().zip(*terms) {
            if term.column != *column || term.factor != *factor {
                return false;
            }
        }
    }
    true
}

/// Whether the program has these values and caps, and no further stages.
fn has_arcs(program: &Program, value: &[i64], caps: &[u64]) -> bool {
    program.value.as_slice() == value
        && program.caps.as_slice() == caps
        && program.columns as usize == caps.len()
        && program.stages.as_slice().is_empty()
}

#[test]
fn builds_the_counted_loop(rt: HostRuntime) -> Result<(), Fail> {
    for (bound, entering) in [(5, -4), (4, -3)] {
        let plan = Plan {
            places: &[(START, 0), (START + 4, 1), (START + 8, 1), (START + 16, 0)],
            arcs: &[(0, 1), (1, 2), (2, 3), (3, 2), (3, 4), (4, 0)],
            loops: &[(2, bound, 0)],
            accesses: &[],
        };
        let program = built(rt.alloc(), &plan)??;
        let lines: [Line; 6] = [
            (true, &[(1, 1)], 1),
            (true, &[(1, 1), (2, -1)], 0),
            (true, &[(2, 1), (3, -1), (4, 1)], 0),
            (true, &[(3, 1), (4, -1), (5, -1)], 0),
            (true, &[(5, 1), (6, -1)], 0),
            (false, &[(2, entering), (4, 1)], 0),
        ];
        assert!(rt; are_rows(&program, &lines));
        let turns = u64::from(bound);
        let caps = [1, 1, turns, turns, turns, 1];
        assert!(rt; has_arcs(&program, &[11, 11, 22, 11, 22, 0], &caps));
    }
    Ok(())
}

#[test]
fn leaves_out_what_cancels(rt: HostRuntime) -> Result<(), Fail> {
    // Place 1 is the header of a loop that two arcs go back to, and of one that goes to itself, and
    // place 4 is a dead end in it. All places are the first unit.
    let plan = Plan {
        places: &[(START, 1), (START, 1), (START, 1), (START, 1)],
        arcs: &[
            (0, 1),
            (1, 1),
            (1, 2),
            (1, 3),
            (1, 4),
            (2, 1),
            (3, 1),
            (1, 0),
        ],
        loops: &[(1, 4_294_967_295, 0)],
        accesses: &[],
    };
    let program = built(rt.alloc(), &plan)??;
    let own = [(1, 1), (3, -1), (4, -1), (5, -1), (6, 1), (7, 1), (8, -1)];
    let lines: [Line; 6] = [
        (true, &[(1, 1)], 1),
        (true, &own, 0),
        (true, &[(3, 1), (6, -1)], 0),
        (true, &[(4, 1), (7, -1)], 0),
        (true, &[(5, 1)], 0),
        (false, &[(1, -4_294_967_294), (2, 1), (6, 1), (7, 1)], 0),
    ];
    assert!(rt; are_rows(&program, &lines));
    let most = 4_294_967_295;
    let caps = [1, most, most, most, most, most, most, most];
    assert!(rt; has_arcs(&program, &[11, 11, 11, 11, 11, 11, 11, 0], &caps));
    Ok(())
}

#[test]
fn takes_in_what_comes_from_within(rt: HostRuntime) -> Result<(), Fail> {
    // Loop 3 lies in 2, which lies in 1. Place 3 goes to itself.
    let plan = Plan {
        places: &[(START, 1), (START, 2), (START, 3)],
        arcs: &[(0, 1), (1, 2), (1, 0), (2, 1), (2, 3), (3, 2), (3, 3)],
        loops: &[(1, 3, 0), (2, 3, 1), (3, 3, 2)],
        accesses: &[],
    };
    let program = built(rt.alloc(), &plan)??;
    let lines: [Line; 7] = [
        (true, &[(1, 1)], 1),
        (true, &[(1, 1), (2, -1), (3, -1), (4, 1)], 0),
        (true, &[(2, 1), (4, -1), (5, -1), (6, 1)], 0),
        (true, &[(5, 1), (6, -1)], 0),
        (false, &[(1, -2), (4, 1)], 0),
        (false, &[(2, -2), (6, 1)], 0),
        (false, &[(5, -2), (7, 1)], 0),
    ];
    assert!(rt; are_rows(&program, &lines));
    let caps = [1, 3, 3, 9, 9, 27, 27];
    assert!(rt; has_arcs(&program, &[11, 11, 0, 11, 11, 11, 11], &caps));
    Ok(())
}

/// Loops in one another, each with this bound. Each header has an arc outward, and one to the next
/// header inward.
fn nest(alloc: Global, depth: u8, bound: u32) -> Result<Result<Program, BuildFault>, Fail> {
    let depth = u32::from(depth);
    let mut places = Vec::new(alloc);
    let mut arcs = vec![in alloc; (0, 1)]?;
    let mut loops = Vec::new(alloc);
    for number in 1..depth + 1 {
        places.push((START, number))?;
        arcs.push((number, number - 1))?;
        if number < depth {
            arcs.push((number, number + 1))?;
        }
        loops.push((number, bound, number - 1))?;
    }
    let plan = Plan {
        places: &places,
        arcs: &arcs,
        loops: &loops,
        accesses: &[],
    };
    built(alloc, &plan)
}

#[test]
fn multiplies_the_bounds_of_nests(rt: HostRuntime) -> Result<(), Fail> {
    let caps = [
        [1, 3, 0, 0, 0, 0, 0, 0, 0, 0],
        [1, 3, 3, 9, 0, 0, 0, 0, 0, 0],
        [1, 3, 3, 9, 9, 27, 0, 0, 0, 0],
        [1, 3, 3, 9, 9, 27, 27, 81, 0, 0],
        [1, 3, 3, 9, 9, 27, 27, 81, 81, 243],
    ];
    for depth in 1..6u8 {
        let program = nest(rt.alloc(), depth, 3)??;
        let deep = usize::from(depth);
        assert!(rt; program.caps.as_slice() == &caps[deep - 1][..2 * deep]);
        assert_eq!(rt; program.rows.as_slice().len(), 1 + 2 * deep);
    }
    Ok(())
}

/// The crude bound that a net is refused for.
fn too_large(answer: Result<Program, BuildFault>) -> Option<u128> {
    match answer {
        Err(BuildFault::TooLarge { crude }) => Some(crude),
        _ => None,
    }
}

#[test]
fn refuses_a_crude_bound_that_is_too_large(rt: HostRuntime) -> Result<(), Fail> {
    let alloc = rt.alloc();
    let most = 4_294_967_295;
    // 11 times the sum of the powers of the bound. For five loops it has more than 128 bits.
    assert_eq!(rt; too_large(nest(alloc, 1, most)?), None);
    let crude = 871_509_787_251_079_344_001_862_598_645;
    assert_eq!(rt; too_large(nest(alloc, 3, most)?), Some(crude));
    assert_eq!(rt; too_large(nest(alloc, 5, most)?), Some(u128::MAX));
    // The greatest bound of three loops that isn't refused, and the next one.
    assert!(rt; nest(alloc, 3, 942_972)?.is_ok());
    let crude = 9_223_397_360_015_773_209;
    assert_eq!(rt; too_large(nest(alloc, 3, 942_973)?), Some(crude));
    Ok(())
}
