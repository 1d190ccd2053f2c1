// The checks of an offered yard before its border is drawn: 19 to 22, then 25 and 26.
ghost use Rattle.std.specs.Prelude.{◌≡◌};
ghost use Rattle.add.specs.Offered.{Offer.{offer_of}, Offers.{offer_good}};

use crate::offered::offer::Offer;
use builder::borders::check_border;
use builder::texts::are_texts;
use numbers::fault::Fault;
use numbers::refusal::Refusal;

// A yard for a builder that has so many, and so many names.
pub(crate) fn check_offer(yards: usize, names: usize, offer: Offer) -> Result<(), Refusal>
    ensures { result ≡ offer_good yards names (offer_of offer.entry) }
{
    check_border(offer.lats, offer.lons)?;
    if 4096 <= yards {
        return Err(Fault::BadYards.alone());
    }
    if offer.sizes.len() != names {
        return Err(Fault::BadYards.alone());
    }
    if !are_texts(offer.sizes, offer.values) {
        return Err(Fault::BadText.alone());
    }
    Ok(())
}
