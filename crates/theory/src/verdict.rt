/// Why a load is not accepted: its busy period does not close by tick 100,000,000, or some mark below it is
/// exceeded by its claim. The pair is the greatest such mark and the claim there. Both cases have a name: an `Option`
/// of the pair would not say what none means.
#[derive(Clone, Copy, PartialEq, Eq, Debug)]
pub enum Unfit {
    NotClosed,
    Late((u64, u64)),
}
