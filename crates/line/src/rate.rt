// The six symbol rates of V.34.
ghost use Rattle.std.specs.Prelude.{◌≡◌};
ghost use Rattle.line.specs.Rates.{rate, symbol_rate};

// J data frames in a superframe, P mapping frames in a data frame, and the range of n, the data rate in steps of 2,400 bit/s. Each of the
// six has a constant and a function that makes it: that form is a rule of the project.
#[derive(Clone, Copy)]
pub struct SymbolRate {
    pub j: u64,
    pub p: u64,
    pub least: u64,
    pub most: u64,
}

impl SymbolRate {
    pub const R2400: SymbolRate = SymbolRate {
        j: 7,
        p: 12,
        least: 1,
        most: 9,
    };

    pub const R2743: SymbolRate = SymbolRate {
        j: 8,
        p: 12,
        least: 2,
        most: 11,
    };

    pub const R2800: SymbolRate = SymbolRate {
        j: 7,
        p: 14,
        least: 2,
        most: 11,
    };

    pub const R3000: SymbolRate = SymbolRate {
        j: 7,
        p: 15,
        least: 2,
        most: 12,
    };

    pub const R3200: SymbolRate = SymbolRate {
        j: 7,
        p: 16,
        least: 2,
        most: 13,
    };

    pub const R3429: SymbolRate = SymbolRate {
        j: 8,
        p: 15,
        least: 2,
        most: 14,
    };

    pub fn r2400() -> SymbolRate
        ensures { result ≡ rate 7 12 1 9 }
    {
        SymbolRate::R2400
    }

    pub fn r2743() -> SymbolRate
        ensures { result ≡ rate 8 12 2 11 }
    {
        SymbolRate::R2743
    }

    pub fn r2800() -> SymbolRate
        ensures { result ≡ rate 7 14 2 11 }
    {
        SymbolRate::R2800
    }

    pub fn r3000() -> SymbolRate
        ensures { result ≡ rate 7 15 2 12 }
    {
        SymbolRate::R3000
    }

    pub fn r3200() -> SymbolRate
        ensures { result ≡ rate 7 16 2 13 }
    {
        SymbolRate::R3200
    }

    pub fn r3429() -> SymbolRate
        ensures { result ≡ rate 8 15 2 14 }
    {
        SymbolRate::R3429
    }

    // The symbol rate that s names, if V.34 has one.
    #[tactic(auto, using(crate::proofs::Rows::rows), unfolding(crate::specs::Rates::symbol_rate, crate::specs::Rates::row_of))]
    pub fn of(s: u64) -> Option<SymbolRate>
        ensures { result ≡ symbol_rate s }
    {
        match s {
            0 => Some(SymbolRate::r2400()),
            1 => Some(SymbolRate::r2743()),
            2 => Some(SymbolRate::r2800()),
            3 => Some(SymbolRate::r3000()),
            4 => Some(SymbolRate::r3200()),
            5 => Some(SymbolRate::r3429()),
            _ => None,
        }
    }
}
