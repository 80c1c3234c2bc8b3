//! The time around a moment at which a message is made.

ghost use Rattle.std.specs.Prelude.{◌≡◌, ◌*◌, unsigned_abs, IfSome, IsSome, ◌↔◌};
ghost use Rattle.rpki_base.specs.Serial.{serial_of};
ghost use Rattle.rpki_sigmsg.specs.Making as spec;

use rpki_base::{Serial, Time, Validity};
use std::marker::Model;

/// The time in which the certificate and the CRL of a made message are valid: from 300 seconds before a moment to 300 seconds after
/// it.
///
/// In a clause it is the moment, in seconds since 1970.
#[derive(Clone, Copy, Debug)]
pub struct Window {
    moment: Time,
    validity: Validity,
}

impl Model for Window {
    ghost use Rattle.std.specs.Prelude.{◌≡◌, ℤ};
    ghost use Rattle.rpki_sigmsg.specs.Making.{window, HasWindow};

    ghost Value = { ℤ };

    ghost view = { λ w. w.moment };

    ghost invariant = { λ w. HasWindow w.moment × (w.validity ≡ window w.moment) };

    ghost inverse = { λ when. record { moment = when; validity = window when } };
}

impl Window {
    /// The time around this moment; None exactly where it begins before 1970 or ends after the year 9999.
    pub fn new(when: Time) -> Option<Window>
        ensures some { IsSome result ↔ spec.HasWindow when }
        ensures value { IfSome result (λ w. w ≡ when) }
    {
        let seconds = when.seconds();
        if seconds < 300 || seconds > 253_402_300_499 {
            return None;
        }
        match (Time::new(seconds - 300), Time::new(seconds + 300)) {
            (Some(first), Some(last)) => Some(Window {
                moment: when,
                validity: Validity::new(first, last),
            }),
            _ => None,
        }
    }

    /// The moment.
    pub fn moment(&self) -> Time
        ensures moment { result ≡ self.now }
        ensures has_window { spec.HasWindow self.now }
    {
        self.moment
    }

    /// The time, as a validity.
    pub fn validity(&self) -> Validity
        ensures { result ≡ spec.window self.now }
    {
        self.validity
    }

    /// The number of a CRL that is made at the moment: thousandths of a second since 1970.
    pub fn crl_number(&self) -> Serial
        ensures { result ≡ serial_of (unsigned_abs self.now * 1000) }
    {
        let seconds = self.moment.seconds().unsigned_abs();
        Serial::from(seconds * 1000)
    }
}
