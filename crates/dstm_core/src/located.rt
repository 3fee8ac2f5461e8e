ghost use Rattle.std.specs.Prelude.{◌↔◌, IsTrue};
ghost use Rattle.dstm_core.specs.Words.{IsPlaceOf, IsValid};
ghost use Rattle.dstm_core.specs.Words.Word.{ObjectWord, StatusWord, RankWord, OwnerWord, OldWord, LowWord, HighWord};

use crate::shape::Shape;

// Tests of places that take numbers of any size: a word that the shape does not have is at no place.
impl Shape {
    /// The place is that of the object.
    pub(crate) fn is_object(&self, at: u64, object: u64) -> bool
        ensures { IsTrue result ↔ IsPlaceOf self.now (ObjectWord object) at }
    {
        at == object && object < u64::from(self.objects)
    }

    /// The place is that of the attempt's status.
    pub(crate) fn is_status(&self, at: u64, attempt: u128) -> bool
        requires { IsValid self.now }
        ensures { IsTrue result ↔ IsPlaceOf self.now (StatusWord attempt) at }
    {
        attempt < u128::from(self.all_attempts()) && at == self.status(attempt as u32)
    }

    /// The place is that of the attempt's rank.
    pub(crate) fn is_rank(&self, at: u64, attempt: u128) -> bool
        requires { IsValid self.now }
        ensures { IsTrue result ↔ IsPlaceOf self.now (RankWord attempt) at }
    {
        attempt < u128::from(self.all_attempts()) && at == self.rank(attempt as u32)
    }

    /// The place is that of the locator's owner.
    pub(crate) fn is_owner(&self, at: u64, locator: u128) -> bool
        requires { IsValid self.now }
        ensures { IsTrue result ↔ IsPlaceOf self.now (OwnerWord locator) at }
    {
        locator < u128::from(self.all_locators()) && at == self.owner(locator as u32)
    }

    /// The place is that of the locator's old version.
    pub(crate) fn is_old_cell(&self, at: u64, locator: u128) -> bool
        requires { IsValid self.now }
        ensures { IsTrue result ↔ IsPlaceOf self.now (OldWord locator) at }
    {
        locator < u128::from(self.all_locators()) && at == self.old_cell(locator as u32)
    }

    /// The place is that of the low part of the locator's new version.
    pub(crate) fn is_new_cell(&self, at: u64, locator: u128) -> bool
        requires { IsValid self.now }
        ensures { IsTrue result ↔ IsPlaceOf self.now (LowWord locator) at }
    {
        locator < u128::from(self.all_locators()) && at == self.new_cell(locator as u32)
    }

    /// The place is that of the high part of the locator's new version.
    pub(crate) fn is_high_cell(&self, at: u64, locator: u128) -> bool
        requires { IsValid self.now }
        ensures { IsTrue result ↔ IsPlaceOf self.now (HighWord locator) at }
    {
        locator < u128::from(self.all_locators()) && at == self.high_cell(locator as u32)
    }
}
