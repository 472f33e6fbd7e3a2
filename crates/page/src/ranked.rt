// A page whose units have been read: their order is that of the page.
ghost use Rattle.std.specs.Prelude.{◌≡◌};
ghost use Rattle.plain.specs.Pages.{page_units};

use crate::formed::Formed;
use ranks::Ranks;

#[derive(Drop)]
pub(crate) struct Ranked<'a> {
    pub page: Formed<'a>,
    pub ranks: Ranks,
    ghost units: { ranks ≡ page_units page },
}
