//! The places still open after records of type 1 have been compared.
//!
//! For most shapes these records decide the order and the directions of the chains, which then stay there. The remaining choices differ
//! only at the places of the other shapes.

ghost use Rattle.std.specs.Prelude.{IfOk, OnOk, [], length, ◌≡◌};
ghost use Rattle.canonical_form.specs.MovedChains.{AreWithin};
ghost use Rattle.tl_number.specs.StillOpen.{settled, still_open};

use crate::ascending_order::arrangement_in_order;
use crate::numbered_arrangement::choose;
use county_chart::{DirectedChain, OpenPlace};
use std::alloc::{AllocError, Global};
use std::marker::Model;
use tl_profile::ShapeOrder;

/// The base arrangement of a county's chains, and the places at which the remaining choices differ from it.
#[derive(Drop)]
pub(crate) struct StillOpen {
    chains: Vec<DirectedChain>,
    places: Vec<OpenPlace>,
}

impl Model for StillOpen {
    ghost use Rattle.county_chart.specs.ShapeOrder.{OrderOfShapes};
    ghost use Rattle.tl_number.specs.ShapeDigits.{ways_of};

    ghost Value = { OrderOfShapes };

    ghost view = { λ still. record { by_shape = still.chains.items; places = still.places.items; choices = ways_of still.places.items } };
}

impl StillOpen {
    /// Makes the order of shapes, with no place still open.
    pub(crate) fn new(alloc: Global, shape_order: &ShapeOrder) -> Result<StillOpen, AllocError>
        ensures chains { IfOk result (λ still. still.by_shape ≡ shape_order.now.by_shape) }
        ensures places { IfOk result (λ still. still.places ≡ []) }
    {
        let chains = arrangement_in_order(alloc, shape_order)?;
        Ok(StillOpen {
            chains,
            places: Vec::new(alloc),
        })
    }

    /// Returns the base arrangement.
    pub(crate) fn by_shape(&self) -> &[DirectedChain]
        ensures { result.now ≡ self.now.by_shape }
    {
        &self.chains
    }

    /// Returns the places still open.
    pub(crate) fn open_places(&self) -> &[OpenPlace]
        ensures { result.now ≡ self.now.places }
    {
        &self.places
    }

    /// Arranges the chains at the places of a shape if only one order is left there, given by a digit. Else these places stay open.
    pub(crate) fn settle(
        &mut self,
        alloc: Global,
        places: &[OpenPlace],
        digits: &[u64],
    ) -> Result<(), AllocError>
        requires { AreWithin (length self.old.by_shape) places.now }
        ensures chains { OnOk result (self.new.by_shape ≡ settled places.now digits.now self.old.by_shape) }
        ensures places { OnOk result (self.new.places ≡ still_open places.now digits.now self.old.places) }
    {
        if digits.len() == 1 {
            choose(self.chains.as_mut_slice(), places, digits[0]);
            return Ok(());
        }
        let mut all = Vec::from_slice(alloc, places)?;
        all.extend_from_slice(&self.places)?;
        self.places = all;
        Ok(())
    }
}
