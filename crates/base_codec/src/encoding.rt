//! Bases, written.
ghost use Rattle.std.specs.Prelude.{◌≡◌, ◌∷◌, ◌++◌, OnOk, IfOk};
ghost use Rattle.command_types.specs.declared.spelling.Spelling.TheVariants.{Second};
ghost use Rattle.command_types.specs.Spelling.{number_spelling, IsNumber};
ghost use Rattle.command_types.specs.Bases.{base_spelling, CanBeWritten, IsWrittenBase, SpellsBase};

use crate::put::{put_names, put_settings, put_trades};
use command_types::Base;
use record_codec::put::put_number;
use std::alloc::{AllocError, Global};

// The mark, behind which records are of the second spelling, the position, and the numbers of the last cycle.
fn put_numbers(out: &mut Vec<u8>, position: u64, cycle: u64, version: u64) -> Result<(), AllocError>
    ensures appends { OnOk result (out.new.items ≡ out.old.items ++ (2 ∷ number_spelling position ++ number_spelling cycle ++ number_spelling version)) }
    ensures position { IsNumber position }
    ensures cycle { IsNumber cycle }
    ensures version { IsNumber version }
{
    out.push(2)?;
    put_number(out, position)?;
    put_number(out, cycle)?;
    put_number(out, version)?;
    Ok(())
}

fn put_base(out: &mut Vec<u8>, base: &Base) -> Result<(), AllocError>
    requires { CanBeWritten base.now }
    ensures appends { OnOk result (out.new.items ≡ out.old.items ++ base_spelling Second base.now) }
    ensures form { OnOk result (IsWrittenBase base.now) }
{
    put_numbers(out, base.position, base.cycle, base.version)?;
    put_names(out, base.members.rows())?;
    put_names(out, base.products.rows())?;
    put_settings(out, base.tolerances.rows())?;
    put_trades(out, base.trades.rows())?;
    Ok(())
}

/// The bytes of a base, behind which records are of the second spelling. The only error is want of memory.
pub fn encode_base(alloc: Global, base: &Base) -> Result<Vec<u8>, AllocError>
    requires { CanBeWritten base.now }
    ensures exact { IfOk result (λ bytes. bytes.items ≡ base_spelling Second base.now) }
    ensures spells { IfOk result (λ bytes. SpellsBase bytes.items base.now) }
{
    let mut bytes = Vec::new(alloc);
    put_base(&mut bytes, base)?;
    Ok(bytes)
}
