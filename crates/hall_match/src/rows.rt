//! The neighbours of each item.

ghost use Rattle.std.specs.Prelude.{◌≡◌, ◌<◌, [], length, All, IfOk};
ghost use Rattle.hall_match.specs.Rows.{lists, row_at, HaveEdges, HaveSame, RowsRise};

use crate::NoMemory;
use std::alloc::{AllocError, Global};

/// For each item its row: the places to which it has an edge, rising.
pub fn rows_of(alloc: Global, left: u32, edges: &[(u32, u32)]) -> Result<Vec<Vec<u32>>, NoMemory>
    requires { All (λ edge. edge.0 < left) edges.now }
    ensures whole { IfOk result (λ rows. length rows.items ≡ left) }
    ensures edges { IfOk result (λ rows. HaveEdges (lists rows.items) edges.now) }
    ensures rising { IfOk result (λ rows. RowsRise (lists rows.items)) }
{
    let rows = empty_rows(alloc, left)?;
    let rows = filled_rows(rows, edges)?;
    sorted_rows(rows)
}

fn empty_rows(alloc: Global, left: u32) -> Result<Vec<Vec<u32>>, AllocError>
    ensures whole { IfOk result (λ rows. length rows.items ≡ left) }
    ensures empty { IfOk result (λ rows. HaveEdges (lists rows.items) []) }
{
    let mut rows = Vec::with_capacity(alloc, left as usize)?;
    for _ in 0..left {
        rows.push(Vec::new(alloc))?;
    }
    Ok(rows)
}

fn filled_rows(mut rows: Vec<Vec<u32>>, edges: &[(u32, u32)]) -> Result<Vec<Vec<u32>>, AllocError>
    requires items { All (λ edge. edge.0 < length rows.items) edges.now }
    requires empty { HaveEdges (lists rows.items) [] }
    ensures whole { IfOk result (λ filled. length filled.items ≡ length rows.items) }
    ensures edges { IfOk result (λ filled. HaveEdges (lists filled.items) edges.now) }
{
    for (item, place) in edges {
        rows[*item as usize].push(*place)?;
    }
    Ok(rows)
}

fn sorted_rows(mut rows: Vec<Vec<u32>>) -> Result<Vec<Vec<u32>>, AllocError>
    ensures whole { IfOk result (λ sorted. length sorted.items ≡ length rows.items) }
    ensures same { IfOk result (λ sorted. HaveSame (lists rows.items) (lists sorted.items)) }
    ensures rising { IfOk result (λ sorted. RowsRise (lists sorted.items)) }
{
    for i in 0..rows.len() {
        rows[i].sort()?;
    }
    Ok(rows)
}

/// The row of the item.
pub fn row_of(rows: &[Vec<u32>], item: u32) -> &[u32]
    requires { item < length rows.now }
    ensures { result.now ≡ row_at (lists rows.now) item }
{
    &rows[item as usize]
}
