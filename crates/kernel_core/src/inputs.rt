use crate::settings::Settings;
use guest_image::{Image, Vault};
use lwc_base::Requests;
use std::marker::Model;

/// What a kernel is opened with. No value of it is made: it stands in contracts alone, where it tells kernels
/// of other inputs apart.
#[derive(Drop)]
pub struct Inputs {
    pub image: Image,
    pub vault: Option<Vault>,
    pub requests: Requests,
    pub settings: Settings,
}

impl Model for Inputs {
    ghost use Rattle.kernel_core.specs.Start.{Inputs};

    ghost Value = { Inputs };

    ghost view = { λ i. record {
      image = i.image;
      vault = i.vault;
      requests = i.requests;
      settings = i.settings;
    } };
}
