// Long lists and many live segments: how many pairs are compared under `Tree` and `Auto`, where a tree or a grid takes the
// place of the list of all pairs, and that every result stays.
use super::*;

/// Horizontal lines above one another, from x = 0 to another x.
fn lines(alloc: Global, count: i32, x: i32) -> Result<Vec<Row>, Fail> {
    Ok((0..count).map(|y| ((0, y), (x, y), 1)).collect(alloc)?)
}

/// Short segments beside one another.
fn steps(alloc: Global, count: i32) -> Result<Vec<Row>, Fail> {
    let mut rows = Vec::new(alloc);
    let mut x: i32 = 0;
    for _ in 0..count {
        rows.push(((x, 0), (x.wrapping_add(10), 1), 1))?;
        x = x.wrapping_add(20);
    }
    Ok(rows)
}

/// Rows of 34 fans each: ten lines, 128 wide, that cross in one point. Fans of different columns or rows do not touch.
fn fans(alloc: Global, count: i32) -> Result<Vec<Row>, Fail> {
    let mut rows = Vec::new(alloc);
    for column in 0..34_i32 {
        let left = column.wrapping_mul(192);
        for row in 0..count {
            let low = row.wrapping_mul(100);
            for line in 0..10_i32 {
                let (rise, right) = (line.wrapping_mul(2), left.wrapping_add(128));
                let end = low.wrapping_add(18).wrapping_sub(rise);
                rows.push(((left, low.wrapping_add(rise)), (right, end), 1))?;
            }
        }
    }
    Ok(rows)
}

/// Squares in a row, each of which overlaps the next.
fn squares(alloc: Global, count: i32) -> Result<Vec<Row>, Fail> {
    let mut rows = Vec::new(alloc);
    for square in 0..count {
        let left = square.wrapping_mul(20);
        let right = left.wrapping_add(30);
        rows.push(((left, 0), (right, 0), 1))?;
        rows.push(((right, 0), (right, 30), 1))?;
        rows.push(((right, 30), (left, 30), 1))?;
        rows.push(((left, 30), (left, 0), 1))?;
    }
    Ok(rows)
}

/// What a split under a strategy leaves.
#[derive(Drop)]
struct Found {
    rows: Vec<Row>,
    flag: Result<bool, Fault>,
    passes: u128,
    /// How many pairs were compared.
    looked: u128,
}

/// Splits under a strategy.
fn split(alloc: Global, strategy: Strategy, given: &[Row]) -> Result<Found, Fail> {
    let mut list = segments(alloc, given)?;
    if !is_splittable(&list) {
        return Err(Fail::from("a segment that may not be split"));
    }
    let mut splitter = SplitSolver::new(alloc);
    let flag = splitter.split_segments(&mut list, &high(strategy));
    Ok(Found {
        rows: rows(alloc, &list)?,
        flag,
        passes: splitter.passes(),
        looked: splitter.looked(),
    })
}

/// Splits under every strategy: how many segments are left, how many passes it took, and how many pairs were compared under
/// `List`, `Tree`, `Frag` and `Auto`. Fails where one of these returns another result than the list.
fn split_alike(alloc: Global, given: &[Row]) -> Result<(usize, u128, [u128; 4]), Fail> {
    let list = split(alloc, Strategy::List, given)?;
    let mut looked = [list.looked; 4];
    for (index, strategy) in [Strategy::Tree, Strategy::Frag, Strategy::Auto]
        .iter()
        .enumerate()
    {
        let other = split(alloc, *strategy, given)?;
        if (other.flag, other.passes) != (list.flag, list.passes) || other.rows != list.rows {
            return Err(Fail::from("another result than that of the list"));
        }
        looked[index + 1] = other.looked;
    }
    Ok((list.rows.len(), list.passes, looked))
}

/// Two long lines cross at (999.5, -8.5), below a thousand short segments beside one another, and between two short ones at the
/// whole heights next to that. The first pass rounds, and cuts two segments of many. So under `Auto` the second compares only
/// their four parts and the two short segments between which they crossed. The rounded point lies on one of these.
#[test]
fn few_changes_in_a_list(rt: HostRuntime) -> Result<(), Fail> {
    let mut given = steps(rt.alloc(), 1000)?;
    given.push(((0, -10), (1999, -7), 1))?;
    given.push(((0, -7), (1999, -10), 1))?;
    given.push(((995, -8), (1005, -8), 1))?;
    given.push(((995, -9), (1005, -9), 1))?;
    let (count, passes, [listed, _, _, auto]) = split_alike(rt.alloc(), &given)?;
    assert!(rt; (count, passes) == (1007, 2));
    assert!(rt; listed == 208 + 219 && auto <= 208 + 15);
    Ok(())
}

/// One vertical crosses lines half as long as those that a tree is tried for: three fragments each, so no tree is tried before
/// the grid. In the column of the vertical the grid compares it with each line once, and in no column two lines with one
/// another, as the tree does.
#[test]
fn crossed_lines_of_few_fragments(rt: HostRuntime) -> Result<(), Fail> {
    let mut given = lines(rt.alloc(), 16_000, 5)?;
    given.push(((3, -1), (3, 16_000), 1))?;
    let (count, passes, [_, tree, grid, auto]) = split_alike(rt.alloc(), &given)?;
    assert!(rt; (count, passes) == (48_001, 1));
    assert!(rt; (tree, grid, auto) == (16_000, 16_000, 16_000));
    Ok(())
}

/// Lists that no split changes. In each of 5 columns a long line has a fragment, and no two of one column meet. A short line
/// has 3, so no tree is tried before the grid, and this compares none; the tree compares the first ones with one another, and
/// under `Auto` columns serve in its place. One segment far to the right makes the columns so wide that all others are in one.
#[test]
fn lists_that_stay(rt: HostRuntime) -> Result<(), Fail> {
    let long = lines(rt.alloc(), 4000, 10)?;
    let (count, passes, [listed, tree, grid, auto]) = split_alike(rt.alloc(), &long)?;
    assert!(rt; (count, passes, listed) == (4000, 1, 4000 * 3999 / 2));
    assert!(rt; tree <= 4000 && auto <= 4000 && grid <= 20_000);
    let short = lines(rt.alloc(), 4000, 5)?;
    let (count, _, [_, tree, grid, auto]) = split_alike(rt.alloc(), &short)?;
    assert!(rt; count == 4000 && 0 < tree && grid == 0 && auto == 0);
    let beside = steps(rt.alloc(), 4000)?;
    let (count, _, [_, tree, _, auto]) = split_alike(rt.alloc(), &beside)?;
    assert!(rt; count == 4000 && tree <= 4000 && auto <= 4000);
    let mut far = lines(rt.alloc(), 2000, 10)?;
    far.push(((536_870_912, 0), (536_870_913, 1), 1))?;
    let (count, _, [_, tree, grid, _]) = split_alike(rt.alloc(), &far)?;
    assert!(rt; count == 2001 && tree <= 2001 && grid <= 2001);
    Ok(())
}

/// 48 rows of 34 fans: 16,320 segments, 45 pairs of each fan meet, and columns are 64 wide. Each segment has two fragments, so
/// no tree is tried before the grid, which compares each of these pairs in two columns.
#[test]
fn fans_in_columns(rt: HostRuntime) -> Result<(), Fail> {
    let given = fans(rt.alloc(), 48)?;
    let (count, passes, [_, tree, grid, auto]) = split_alike(rt.alloc(), &given)?;
    assert!(rt; (count, passes) == (2 * 16_320, 1));
    for looked in [tree, grid, auto] {
        assert!(rt; 16_320 + 45 * 1632 < looked && looked <= 2 * 16_320 + 2 * 45 * 1632);
    }
    Ok(())
}

/// All heights meet, so a scan upward would compare every pair of each column. From left to right it compares those whose
/// boxes meet, each in at most two columns.
#[test]
fn squares_in_a_row(rt: HostRuntime) -> Result<(), Fail> {
    let given = squares(rt.alloc(), 250)?;
    let (_, _, [listed, _, grid, _]) = split_alike(rt.alloc(), &given)?;
    assert!(rt; grid / 2 <= listed);
    Ok(())
}
