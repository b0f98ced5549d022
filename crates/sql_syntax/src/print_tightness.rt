ghost use Rattle.std.specs.Prelude.{◌≡◌};
ghost use Rattle.sql_syntax.specs.Printing.{strength, looser};

/// The rules of the grammar of expressions, each made of parts that the next ones make.
#[derive(Clone, Copy)]
pub(crate) enum Tightness {
    Expr,
    Conj,
    Neg,
    Sum,
    Product,
    Unary,
    Primary,
}

impl Tightness {
    fn strength(self) -> u8
        ensures { result ≡ strength self }
    {
        match self {
            Tightness::Expr => 0,
            Tightness::Conj => 1,
            Tightness::Neg => 2,
            Tightness::Sum => 3,
            Tightness::Product => 4,
            Tightness::Unary => 5,
            Tightness::Primary => 6,
        }
    }

    /// Whether what this rule makes stands in brackets where the other is asked for.
    pub(crate) fn is_looser(self, asked: Tightness) -> bool
        ensures { result ≡ looser self asked }
    {
        self.strength() < asked.strength()
    }
}
