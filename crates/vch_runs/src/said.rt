ghost use Rattle.std.specs.Prelude.{Some};
ghost use Rattle.vch_runs.specs.Said.{Says};

use vch_model::Call;

/// What a call says, but for the bytes of a create, of which it has the number.
#[derive(Clone, Copy, Debug)]
pub enum Said {
    Create {
        size: usize,
    },
    GiveUp {
        name: u32,
    },
    Extract {
        name: u32,
        key: u32,
    },
    Recipes {
        name: u32,
    },
    Send {
        to: u32,
        moving: bool,
        name: u32,
        id: u32,
    },
    Recv,
    Extern {
        name: u32,
        adding: bool,
        n: u32,
    },
    Charge {
        name: u32,
        n: u32,
    },
    Ledger,
    Assertions,
    Live,
    Exit,
}

/// What a call says.
pub fn read_call(call: &Call) -> Said
    ensures { Says result (Some call.now) }
{
    match call {
        Call::Create { bytes } => Said::Create {
            size: bytes.as_slice().len(),
        },
        Call::GiveUp { name } => Said::GiveUp { name: *name },
        Call::Extract { name, key } => Said::Extract {
            name: *name,
            key: *key,
        },
        Call::Recipes { name } => Said::Recipes { name: *name },
        Call::Send {
            to,
            moving,
            name,
            id,
        } => Said::Send {
            to: *to,
            moving: *moving,
            name: *name,
            id: *id,
        },
        Call::Recv => Said::Recv,
        Call::Extern { name, adding, n } => Said::Extern {
            name: *name,
            adding: *adding,
            n: *n,
        },
        Call::Charge { name, n } => Said::Charge { name: *name, n: *n },
        Call::Ledger => Said::Ledger,
        Call::Assertions => Said::Assertions,
        Call::Live => Said::Live,
        Call::Exit => Said::Exit,
    }
}
