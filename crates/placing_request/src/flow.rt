// A flow by its number.
ghost use Rattle.std.specs.Prelude.{◌≡◌, ◌%◌, eqb, ltb};
ghost use Rattle.placing_request.specs.Flows.{flow_number, flow_of};

use refusals::Refusal;

#[derive(Clone, Copy)]
pub enum Flow {
    Row,
    Column,
    RowDense,
    ColumnDense,
}

impl TryFrom<u8> for Flow {
    type Error = Refusal;

    ghost try_from_gives = { λ n r. r ≡ flow_of n };

    fn try_from(number: u8) -> Result<Self, Refusal> {
        match number {
            0 => Ok(Flow::Row),
            1 => Ok(Flow::Column),
            2 => Ok(Flow::RowDense),
            3 => Ok(Flow::ColumnDense),
            _ => Err(Refusal::UnknownFlow),
        }
    }
}

impl Flow {
    pub fn has_columns_primary(self) -> bool
        ensures { result ≡ eqb (flow_number self % 2) 0 }
    {
        matches!(self, Flow::Row | Flow::RowDense)
    }

    pub fn is_dense(self) -> bool
        ensures { result ≡ ltb 1 (flow_number self) }
    {
        matches!(self, Flow::RowDense | Flow::ColumnDense)
    }
}
