//! What is written is read again.

ghost use Rattle.std.specs.Prelude.{◌≡◌, ℕ, List, length};
ghost use Rattle.rpki_der.specs.declared.mode.Mode.{Mode};
ghost use Rattle.rpki_der.specs.Whole.{IsWhole};
ghost use Rattle.rpki_base.specs.Civil.{IsMoment};
ghost use Rattle.rpki_base.specs.PublicKey.{KeyFields};
ghost use Rattle.rpki_base.specs.Validity.{ValidityFields};
ghost use Rattle.rpki_idcert.specs.Making.{IsMadeFor};
ghost use Rattle.rpki_idcert.specs.TbsIdCert.{TbsFields, tbs_certificate};
ghost use Rattle.rpki_idcert.specs.Spelling.{spelled_tbs, AreReadable, CanSpellCertificate};

/// What `TbsIdCert::encode_ref` writes of fields that can be read is read as these fields, in the mode in which the names are
/// read.
pub fn written_fields_are_read()
    ensures { (mode : Mode) (t : TbsFields) → AreReadable mode t → CanSpellCertificate t
        → IsWhole (tbs_certificate mode) mode (spelled_tbs t) t }
{}

/// What `TbsIdCert::new` makes can be read, where the serial number has twenty octets and the validity begins and ends in the years
/// 0 to 9999.
pub fn made_fields_are_readable()
    ensures { (mode : Mode) (issuing key : KeyFields) (serial : List ℕ) (validity : ValidityFields)
        (t : TbsFields) → length serial ≡ 20 → IsMoment validity.not_before
        → IsMoment validity.not_after → IsMadeFor issuing key serial validity t
        → AreReadable mode t }
{}
