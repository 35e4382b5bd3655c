ghost use Rattle.std.specs.Prelude.{◌≡◌, ◌<◌, ◌≤◌, length, map, IfOk};
ghost use Rattle.model_lex.specs.Sections.{line_seen, split_seen};
ghost use Rattle.model_parse.specs.Rules.{Gives};
ghost use Rattle.model_parse.specs.RawModels.{AreOpts, IsSoundRaw};
ghost use Rattle.model_parse.specs.believed.RawModels.{order_in, raw_model_of};
ghost use Rattle.model_parse.specs.ModelSteps.{with_demand};
ghost use Rattle.model_parse.specs.GroupSteps.{read_groups};
ghost use Rattle.model_parse.specs.Steps.{and_then};
ghost use Rattle.model_parse.specs.Written.{ParamsReadBack};

use crate::fault::bad;
use crate::group::read_groups;
use crate::param::read_params;
use crate::reading::ParamsRead;
use cov_model::{Demand, ParamList};
use model_lex::{DiagCode, ModelFault, ModelOpts, NoteList, NumLine, OrderWord, Sections};
use std::alloc::Global;

/// What the parameter lines and the group lines of a model file say (PICT's guide; the ACTS guide
/// for relations).
#[derive(Drop)]
pub struct RawModel {
    /// The parameters, in order of declaration.
    pub params: ParamList,
    /// What a suite has to cover.
    pub demand: Demand,
    /// One note for each value name that was dropped, by line and place.
    pub notes: NoteList,
}

// The order of the whole, where there are so many parameters.
fn order_in(order: OrderWord, count: u32) -> u32
    ensures { result ≡ order_in order count }
{
    match order {
        OrderWord::Number(n) => n,
        OrderWord::Max => count,
    }
}

// The order of a demand may not be above the number of parameters. Their last line is refused where it is.
fn check_order(lines: &[NumLine<'_>], read: &ParamsRead, demand: &Demand) -> Result<(), ModelFault>
    requires some { 0 < length lines.now }
    requires few { length read.now.params ≤ 256 }
    ensures { Gives (with_demand (map line_seen lines.now) read.now demand.now)
        (λ done. record { params = read.now.params; demand = demand.now; notes = read.now.notes }) result }
{
    if demand.order > read.params.len() as u32 {
        let last = &lines[lines.len() - 1];
        return Err(bad(last.line, DiagCode::OrderTooLarge));
    }
    Ok(())
}

// The demand of the group lines, behind what was read of the parameter lines.
fn read_demand(
    alloc: Global,
    opts: &ModelOpts,
    lines: &[NumLine<'_>],
    read: &ParamsRead,
    groups: &[NumLine<'_>],
) -> Result<Demand, ModelFault>
    requires separator { opts.now.marks.separator < 128 }
    requires params { length read.now.params ≤ 256 }
    requires known { length read.now.known ≤ 256 }
    requires some { 0 < length lines.now }
    ensures { Gives (and_then (read_groups opts.now read.now.known (order_in opts.now.order (length read.now.params)) (map line_seen groups.now)) (with_demand (map line_seen lines.now) read.now))
        (λ demand. record { params = read.now.params; demand = demand; notes = read.now.notes }) result }
{
    let order = order_in(opts.order, read.params.len() as u32);
    let demand = read_groups(alloc, opts, &read.known, order, groups)?;
    check_order(lines, read, &demand)?;
    Ok(demand)
}

/// The parameters, the demand and the notes that the parameter lines and the group lines of a model
/// file spell (PICT's guide; the ACTS guide for relations; the details are this project's rules).
///
/// # Errors
///
/// The first refusal: `Bad` with `NoParameters` at line 1 without a parameter line, `Limit` with
/// `Params` where there are more than 256, then line by line `Bad` with one of
/// `EmptyParameterName` to `UnknownReference`, and `Limit` with `Names` for a value that keeps more
/// than 64 names and with `Values` for a parameter that keeps more than 4,095 values; then group by
/// group `Bad` with one of `GroupNotClosed` to `RelationNoOrder`; last `Bad` with `OrderTooLarge` at
/// the last parameter line where the order of `opts` is above the number of parameters. `NoMemory`
/// where memory was refused.
pub fn parse_params(
    alloc: Global,
    sections: &Sections<'_>,
    opts: &ModelOpts,
) -> Result<RawModel, ModelFault>
    requires { AreOpts opts.now }
    ensures value { Gives (raw_model_of opts.now (split_seen sections.now)) (λ raw. raw) result }
    ensures sound { IfOk result (IsSoundRaw opts.now) }
{
    let lines = sections.params.as_slice();
    let read = read_params(alloc, opts, lines)?;
    let demand = read_demand(alloc, opts, lines, &read, sections.groups.as_slice())?;
    let ParamsRead {
        params,
        notes,
        known: _,
    } = read;
    Ok(RawModel {
        params,
        demand,
        notes,
    })
}

/// The parameters of a model read back: where a line is written for each, as `NAME: a | b (3), ~c, d`,
/// reading these lines gives the parameters, and no note. Names may hold neither a separator nor an
/// alias mark, and each weight is from 1 to 4294967295: a value may have weight 0, but none is read.
pub fn params_read_back()
    ensures { ParamsReadBack }
{}
