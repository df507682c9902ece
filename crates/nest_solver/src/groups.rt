//! Numbers put together by a key, as chains: of each key the greatest number, of each number the next
//! less one of its key.

ghost use Rattle.std.specs.Prelude.{◌≡◌, ℕ, ◌<◌, ◌≤◌, length};
ghost use Rattle.nest_solver.specs.Groups.{AreGrouped};
ghost use Rattle.nest_solver.specs.Nets.{entry};

/// Puts the numbers from 1 on into chains by their keys.
pub fn group(keys: &[usize], first: &mut [usize], next: &mut [usize])
    requires keys { (i : ℕ) → i < length keys.now → entry keys.now i < length first.old }
    requires some { 0 < length keys.now }
    requires room { length next.old ≡ length keys.now }
    requires fresh { (key : ℕ) → entry first.old key ≡ 0 }
    ensures grouped { AreGrouped (entry keys.now) (length keys.now) (entry first.new) (entry next.new) }
{
    for number in 1..keys.len() {
        let key = keys[number];
        next[number] = first[key];
        first[key] = number;
    }
}
