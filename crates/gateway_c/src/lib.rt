// The calls that the firmware's C code makes, as include/tyurkanim.h declares them. C passes a slice as a pointer and a length.
// Each makes the call of its name in the crate gateway and promises the same. The two are apart because a library exports nothing to C, and no
// crate can call a static library.
#![tactic(auto)]

ghost use Rattle.std.specs.Prelude.{◌≡◌};
ghost use Rattle.points.specs.Types.{gateway};
ghost use Rattle.frame.specs.Address.{address};
ghost use Rattle.values.specs.Number.{raw_read, telling};
ghost use Rattle.rules.specs.Answer.{answer};
ghost use Rattle.rules.specs.System.{system_write, fill, ticking};

#[unsafe(no_mangle)]
pub extern "C" fn tyurkanim_request(
    frame: &[u8],
    store: &mut [u8],
    clock: &mut [u8; 7],
    unit: u8,
    group: u8,
    level: u8,
    reply: &mut [u8],
    length: &mut u16,
) -> u8
    ensures { record { outcome = result; count = length.new; store = store.new; clock = clock.new; reply = reply.new }
        ≡ answer gateway (record { frame = frame.now; us = address unit group; level = level }) (record { store = store.old; clock = clock.old }) reply.old }
{
    gateway::tyurkanim_request(frame, store, clock, unit, group, level, reply, length)
}

#[unsafe(no_mangle)]
pub extern "C" fn tyurkanim_system_write(
    store: &mut [u8],
    t: u8,
    logical: u8,
    parameter: u8,
    value: &[u8],
) -> u8
    ensures { record { outcome = result; store = store.new } ≡ system_write gateway store.old t logical parameter value.now }
{
    gateway::tyurkanim_system_write(store, t, logical, parameter, value)
}

#[unsafe(no_mangle)]
pub extern "C" fn tyurkanim_fill(store: &mut [u8]) -> u8
    ensures { record { outcome = result; store = store.new } ≡ fill gateway store.old }
{
    gateway::tyurkanim_fill(store)
}

#[unsafe(no_mangle)]
pub extern "C" fn tyurkanim_tick(clock: &mut [u8; 7]) -> u8
    ensures { record { outcome = result; clock = clock.new } ≡ ticking clock.old }
{
    gateway::tyurkanim_tick(clock)
}

#[unsafe(no_mangle)]
pub extern "C" fn tyurkanim_number_read(
    store: &[u8],
    t: u8,
    logical: u8,
    parameter: u8,
    kind: &mut u8,
    bits: &mut u64,
) -> u8
    ensures { record { outcome = result; kind = kind.new; bits = bits.new }
        ≡ telling kind.old bits.old (raw_read gateway store.now t logical parameter) }
{
    gateway::tyurkanim_number_read(store, t, logical, parameter, kind, bits)
}
