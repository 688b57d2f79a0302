//! From limit rows to pairs, and from pairs to the rows of a network.

ghost use Rattle.std.specs.Prelude.{◌≡◌, ◌≤◌, length, replicate, map, filter, All, IfOk};
ghost use Rattle.network_laws.specs.Limits.{AreLimitRows};
ghost use Rattle.residual_graph.specs.Residual.{capped, flow_with, flow_of, flow_rows, has_amount, IsFlow};
ghost use Rattle.residual_graph.specs.Built.{IsBetween, IsSmall, HaveLimits, blank_flow};

use crate::flow::Flow;
use crate::next_row::NextRow;
use network_laws::{LimitRow, Network, Row};
use std::alloc::{AllocError, Global};

/// A pair for each limit row, with the network's amount.
pub fn flows_of(
    alloc: Global,
    rows: &[LimitRow],
    network: &Network,
    cap: u64,
) -> Result<Vec<Flow>, AllocError>
    requires good { AreLimitRows network.now.members rows.now }
    requires within { All (IsBetween cap network.now) rows.now }
    requires limited { HaveLimits network.now.rows rows.now }
    ensures value { IfOk result (λ flows. flows.items ≡ map (flow_of cap network.now) rows.now) }
    ensures small { IfOk result (λ flows. All IsSmall flows.items) }
{
    let mut flows = Vec::with_capacity(alloc, rows.len())?;
    flows.resize(rows.len(), blank_flow(cap))?;
    fill_flows(&mut flows, rows, network, cap);
    Ok(flows)
}

/// A pair without members, which may have anything up to the cap.
fn blank_flow(cap: u64) -> Flow
    ensures { result ≡ blank_flow cap }
{
    Flow {
        seller: 0,
        buyer: 0,
        lower: 0,
        back: 0,
        room: cap,
    }
}

/// Makes blank pairs those of limit rows. The network's rows are walked in step.
fn fill_flows(flows: &mut [Flow], rows: &[LimitRow], network: &Network, cap: u64)
    requires good { AreLimitRows network.now.members rows.now }
    requires within { All (IsBetween cap network.now) rows.now }
    requires limited { HaveLimits network.now.rows rows.now }
    requires blank { flows.old ≡ replicate (length rows.now) (blank_flow cap) }
    ensures value { flows.new ≡ map (flow_of cap network.now) rows.now }
    ensures small { All IsSmall flows.new }
{
    let sales = network.rows();
    let mut next = NextRow::of(sales, 0);
    for place in 0..rows.len() {
        let row = &rows[place];
        if next.is_of(sales, row) {
            flows[place] = flow_of(*row, sales[next.at].amount, cap);
            next = NextRow::of(sales, next.at + 1);
        } else {
            set_idle(&mut flows[place], *row, cap);
        }
    }
}

/// Makes a blank pair that of a limit row without an amount.
#[inline(always)]
fn set_idle(flow: &mut Flow, row: LimitRow, cap: u64)
    requires low { row.lower ≡ 0 }
    requires blank { flow.old ≡ blank_flow cap }
    ensures value { flow.new ≡ flow_with cap row 0 }
    ensures small { IsSmall flow.new }
{
    if let Some(most) = row.upper {
        flow.room = most;
    }
    flow.seller = row.seller;
    flow.buyer = row.buyer;
}

/// The pair of a limit row with an amount.
#[inline(always)]
fn flow_of(row: LimitRow, amount: u64, cap: u64) -> Flow
    requires low { row.lower ≤ amount }
    requires high { amount ≤ capped cap row.upper }
    ensures value { result ≡ flow_with cap row amount }
    ensures small { IsSmall result }
{
    Flow {
        seller: row.seller,
        buyer: row.buyer,
        lower: row.lower,
        back: amount - row.lower,
        room: most_of(row, cap) - amount,
    }
}

/// The most that a pair may have, with a cap where it has no upper bound.
#[inline(always)]
fn most_of(row: LimitRow, cap: u64) -> u64
    ensures { result ≡ capped cap row.upper }
{
    match row.upper {
        Some(most) => most,
        None => cap,
    }
}

/// The rows of the pairs that have an amount.
pub fn rows_of(alloc: Global, flows: &[Flow], members: u16) -> Result<Vec<Row>, AllocError>
    requires good { All (IsFlow members) flows.now }
    ensures { IfOk result (λ rows. rows.items ≡ filter has_amount (flow_rows flows.now)) }
{
    let mut rows = Vec::new(alloc);
    for flow in flows {
        let amount = flow.lower + flow.back;
        if amount > 0 {
            rows.push(Row {
                seller: flow.seller,
                buyer: flow.buyer,
                amount,
            })?;
        }
    }
    Ok(rows)
}
