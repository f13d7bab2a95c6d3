// Why a call of the house is refused. A fault of a lower layer is carried whole, with its number and its layer.
ghost use Rattle.std.specs.Prelude.{◌≡◌, Some};
ghost use Rattle.house.specs.Faults.{fault_number, fault_layer, layer_letter};
ghost use Rattle.house.specs.declared.fault.Fault.TheVariants as fault;

use ledger::fault::LedgerFault;
use shelves::fault::ShelfFault;
use std::fmt;
use values::fault::ValueFault;

// Where a refusal comes from.
#[derive(Clone, Copy, PartialEq, Eq, Debug)]
pub enum Layer {
    Value,
    Shelf,
    // the text of an input, above the house
    Line,
    House,
}

// The letter is the format of an answer.
impl fmt::Display for Layer {
    ghost output = { λ layer. Some (layer_letter layer) };

    fn fmt<W: fmt::Write>(&self, f: &mut fmt::Formatter<W>) -> fmt::Result {
        match self {
            Layer::Value => write!(f, "V"),
            Layer::Shelf => write!(f, "S"),
            Layer::Line => write!(f, "L"),
            Layer::House => write!(f, "H"),
        }
    }
}

#[derive(Clone, Copy, PartialEq, Eq, Debug)]
pub enum Fault {
    Ledger(LedgerFault),
    Shelf(ShelfFault),
    Value(ValueFault),
    // 14: the archive is longer than the buffer; `needed` is its size
    ShortBuffer { needed: u64 },
}

impl Fault {
    pub fn number(&self) -> u8
        ensures { result ≡ fault_number self.now }
    {
        match self {
            Fault::Ledger(f) => f.number(),
            Fault::Shelf(f) => f.number(),
            Fault::Value(f) => f.number(),
            Fault::ShortBuffer { .. } => 14,
        }
    }

    pub fn layer(&self) -> Layer
        ensures { result ≡ fault_layer self.now }
    {
        match self {
            Fault::Ledger(_) => Layer::House,
            Fault::Shelf(_) => Layer::Shelf,
            Fault::Value(_) => Layer::Value,
            Fault::ShortBuffer { .. } => Layer::House,
        }
    }
}

impl From<LedgerFault> for Fault {
    ghost from_gives = { λ f r. r ≡ fault.Ledger f };

    fn from(f: LedgerFault) -> Fault {
        Fault::Ledger(f)
    }
}

impl From<ShelfFault> for Fault {
    ghost from_gives = { λ f r. r ≡ fault.Shelf f };

    fn from(f: ShelfFault) -> Fault {
        Fault::Shelf(f)
    }
}

impl From<ValueFault> for Fault {
    ghost from_gives = { λ f r. r ≡ fault.Value f };

    fn from(f: ValueFault) -> Fault {
        Fault::Value(f)
    }
}
