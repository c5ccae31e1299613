//! Putting the methods of class connection at the end of bytes.
ghost use Rattle.std.specs.Prelude.{◌≡◌, ◌++◌, OnOk, OnErr, IsOkUnless};
ghost use Rattle.qq_base.specs.Fronts.{IsFront as IsPrefix};
ghost use Rattle.qq_amqp_wire.specs.Writing.{HasLengths, method_bytes};
ghost use Rattle.qq_amqp_wire.specs.declared.method.Method.TheVariants.{ConnectionStart, ConnectionStartOk, ConnectionTune, ConnectionTuneOk, ConnectionOpen, ConnectionOpenOk, ConnectionClose, ConnectionCloseOk};

use crate::put::{put_long_str, put_numbers, put_short_str};
use qq_base::{Bytes, Memory, Text, put_u8, put_u16, put_u32};

#[tactic(auto, using(qq_fields::proofs::Appends::prefix_rules), unfolding(crate::specs::Writing::method_bytes))]
pub fn put_start(
    out: &mut Vec<u8>,
    major: u8,
    minor: u8,
    properties: &Bytes,
    mechanisms: &Bytes,
    locales: &Bytes,
) -> Result<(), Memory>
    requires { HasLengths (ConnectionStart major minor properties.now mechanisms.now locales.now) }
    ensures ok { OnOk result (out.new.items ≡ out.old.items
        ++ method_bytes (ConnectionStart major minor properties.now mechanisms.now locales.now)) }
    ensures err { OnErr result (IsPrefix out.old.items out.new.items) }
    ensures want { IsOkUnless result Memory.Want }
{
    put_numbers(out, 10, 10)?;
    put_u8(out, major)?;
    put_u8(out, minor)?;
    put_long_str(out, properties)?;
    put_long_str(out, mechanisms)?;
    put_long_str(out, locales)
}

#[tactic(auto, using(qq_fields::proofs::Appends::prefix_rules), unfolding(crate::specs::Writing::method_bytes))]
pub fn put_start_ok(
    out: &mut Vec<u8>,
    properties: &Bytes,
    mechanism: &Text,
    response: &Bytes,
    locale: &Text,
) -> Result<(), Memory>
    requires { HasLengths (ConnectionStartOk properties.now mechanism.now response.now locale.now) }
    ensures ok { OnOk result (out.new.items ≡ out.old.items
        ++ method_bytes (ConnectionStartOk properties.now mechanism.now response.now locale.now)) }
    ensures err { OnErr result (IsPrefix out.old.items out.new.items) }
    ensures want { IsOkUnless result Memory.Want }
{
    put_numbers(out, 10, 11)?;
    put_long_str(out, properties)?;
    put_short_str(out, mechanism)?;
    put_long_str(out, response)?;
    put_short_str(out, locale)
}

#[tactic(auto, using(qq_fields::proofs::Appends::prefix_rules), unfolding(crate::specs::Writing::method_bytes))]
pub fn put_tune(
    out: &mut Vec<u8>,
    channel_max: u16,
    frame_max: u32,
    heartbeat: u16,
) -> Result<(), Memory>
    ensures ok { OnOk result (out.new.items ≡ out.old.items
        ++ method_bytes (ConnectionTune channel_max frame_max heartbeat)) }
    ensures err { OnErr result (IsPrefix out.old.items out.new.items) }
    ensures want { IsOkUnless result Memory.Want }
{
    put_numbers(out, 10, 30)?;
    put_u16(out, channel_max)?;
    put_u32(out, frame_max)?;
    put_u16(out, heartbeat)
}

#[tactic(auto, using(qq_fields::proofs::Appends::prefix_rules), unfolding(crate::specs::Writing::method_bytes))]
pub fn put_tune_ok(
    out: &mut Vec<u8>,
    channel_max: u16,
    frame_max: u32,
    heartbeat: u16,
) -> Result<(), Memory>
    ensures ok { OnOk result (out.new.items ≡ out.old.items
        ++ method_bytes (ConnectionTuneOk channel_max frame_max heartbeat)) }
    ensures err { OnErr result (IsPrefix out.old.items out.new.items) }
    ensures want { IsOkUnless result Memory.Want }
{
    put_numbers(out, 10, 31)?;
    put_u16(out, channel_max)?;
    put_u32(out, frame_max)?;
    put_u16(out, heartbeat)
}

#[tactic(auto, using(qq_fields::proofs::Appends::prefix_rules), unfolding(crate::specs::Writing::method_bytes, crate::specs::Arguments::short_str))]
pub fn put_open(out: &mut Vec<u8>, virtual_host: &Text) -> Result<(), Memory>
    requires { HasLengths (ConnectionOpen virtual_host.now) }
    ensures ok { OnOk result (out.new.items ≡ out.old.items
        ++ method_bytes (ConnectionOpen virtual_host.now)) }
    ensures err { OnErr result (IsPrefix out.old.items out.new.items) }
    ensures want { IsOkUnless result Memory.Want }
{
    put_numbers(out, 10, 40)?;
    put_short_str(out, virtual_host)?;
    put_u8(out, 0)?;
    put_u8(out, 0)
}

#[tactic(auto, using(qq_fields::proofs::Appends::prefix_rules), unfolding(crate::specs::Writing::method_bytes, crate::specs::Arguments::short_str))]
pub fn put_open_ok(out: &mut Vec<u8>) -> Result<(), Memory>
    ensures ok { OnOk result (out.new.items ≡ out.old.items ++ method_bytes ConnectionOpenOk) }
    ensures err { OnErr result (IsPrefix out.old.items out.new.items) }
    ensures want { IsOkUnless result Memory.Want }
{
    put_numbers(out, 10, 41)?;
    put_u8(out, 0)
}

#[tactic(auto, using(qq_fields::proofs::Appends::prefix_rules), unfolding(crate::specs::Writing::method_bytes))]
pub fn put_close(
    out: &mut Vec<u8>,
    code: u16,
    text: &Text,
    class: u16,
    method: u16,
) -> Result<(), Memory>
    requires { HasLengths (ConnectionClose code text.now class method) }
    ensures ok { OnOk result (out.new.items ≡ out.old.items
        ++ method_bytes (ConnectionClose code text.now class method)) }
    ensures err { OnErr result (IsPrefix out.old.items out.new.items) }
    ensures want { IsOkUnless result Memory.Want }
{
    put_numbers(out, 10, 50)?;
    put_u16(out, code)?;
    put_short_str(out, text)?;
    put_u16(out, class)?;
    put_u16(out, method)
}

#[tactic(auto, using(qq_fields::proofs::Appends::prefix_rules), unfolding(crate::specs::Writing::method_bytes))]
pub fn put_close_ok(out: &mut Vec<u8>) -> Result<(), Memory>
    ensures ok { OnOk result (out.new.items ≡ out.old.items ++ method_bytes ConnectionCloseOk) }
    ensures err { OnErr result (IsPrefix out.old.items out.new.items) }
    ensures want { IsOkUnless result Memory.Want }
{
    put_numbers(out, 10, 51)
}
